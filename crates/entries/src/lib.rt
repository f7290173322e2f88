//! Lists of entries for a k-CAS: only a lawful list can be had.

#![tactic(auto)]

mod list;

pub use list::{Entries, law_stands};

/// What a k-CAS asks of one word: the value expected there and the value to store.
#[derive(Clone, Copy, PartialEq, Eq, Debug)]
pub struct Entry {
    pub word: u64,
    pub expected: u64,
    pub new: u64,
}

/// The entries are no lawful list (refusal 9).
#[derive(Clone, Copy, PartialEq, Eq, Debug)]
pub struct Unlawful;

#[cfg(test)]
mod tests {
    use super::*;

    const FREE: u64 = 2305843009213693951;

    fn entry(word: u64, new: u64) -> Entry {
        Entry {
            word,
            expected: 0,
            new,
        }
    }

    fn ascending() -> [Entry; 9] {
        std::array::from_fn(|i| entry(i as u64, 7))
    }

    #[test]
    fn one_to_eight_entries(rt: HostRuntime) {
        let mut list = Entries::new();
        let entries = ascending();
        assert_eq!(rt; list.fill(&[]), Err(Unlawful));
        assert_eq!(rt; list.fill(&entries), Err(Unlawful));
        assert_eq!(rt; list.len(), 1, "a refused list leaves the one held");
        assert_eq!(rt; list.fill(&entries[1..9]), Ok(()));
        assert_eq!(rt; list.len(), 8);
        assert_eq!(rt; list.get(7), Some(entry(8, 7)));
    }

    #[test]
    fn words_ascend(rt: HostRuntime) {
        let mut list = Entries::new();
        assert_eq!(rt; list.fill(&[entry(2, 0), entry(2, 0)]), Err(Unlawful));
        assert_eq!(rt; list.fill(&[entry(2, 0), entry(3, 0)]), Ok(()));
        assert_eq!(rt; list.fill(&[entry(3, 0), entry(2, 0)]), Err(Unlawful));
        assert_eq!(rt; list.len(), 2);
    }

    #[test]
    fn values_fit(rt: HostRuntime) {
        let mut list = Entries::new();
        assert_eq!(rt; list.fill(&[entry(0, FREE + 1)]), Err(Unlawful));
        assert_eq!(rt; list.fill(&[entry(0, FREE)]), Ok(()));
    }
}

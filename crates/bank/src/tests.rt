ghost use Rattle.std.specs.Prelude.{◌≡◌, [], ◌∷◌};

use crate::{Bank, ByteBank, NoWord, Pair, Window, WordBank, compare_and_swap};

/// What the caller's words hold once the bank over them is gone.
fn words_after() -> [u64; 2]
    ensures { result ≡ 7 ∷ 2 ∷ [] }
{
    let mut words = [1, 2];
    let mut bank = WordBank::over(&mut words);
    let _ = bank.swap(0, 1, 7);
    words
}

#[test]
fn lent_words_come_back(rt: HostRuntime) {
    assert_eq!(rt; words_after(), [7, 2]);
}

#[test]
fn empty_bank_has_no_word(rt: HostRuntime) {
    let mut none: [u64; 0] = [];
    let mut bank = WordBank::over(&mut none);
    assert_eq!(rt; bank.size(), 0);
    assert_eq!(rt; bank.load(0), Err(NoWord));
    assert_eq!(rt; bank.swap(0, 0, 1), Err(NoWord));
}

#[test]
fn leftover_bytes_are_never_touched(rt: HostRuntime) {
    let mut bytes = [0, 0, 0, 0, 0, 0, 1, 2, 3, 4, 5];
    let mut bank = ByteBank::over(&mut bytes);
    assert_eq!(rt; bank.size(), 1);
    assert_eq!(rt; bank.swap(0, 258, 0x0a00_0000_0000_000b), Ok(258));
    assert_eq!(rt; bank.load(1), Err(NoWord));
    assert_eq!(rt; bytes, [10, 0, 0, 0, 0, 0, 0, 11, 3, 4, 5]);
}

#[test]
fn window_stops_at_the_end(rt: HostRuntime) {
    let mut words = [1, 2, 3];
    let mut window = Window::over(WordBank::over(&mut words), 1, u64::MAX);
    assert_eq!(rt; window.size(), 2);
    assert_eq!(rt; compare_and_swap(&mut window, 1, 3, 9), Ok(3));
    assert_eq!(rt; window.load(2), Err(NoWord));
    assert_eq!(rt; window.into_inner().load(2), Ok(9));
}

#[test]
fn window_past_the_end_is_empty(rt: HostRuntime) {
    let mut words = [1, 2, 3];
    let window = Window::over(WordBank::over(&mut words), u64::MAX, u64::MAX);
    assert_eq!(rt; window.size(), 0);
    assert_eq!(rt; window.load(u64::MAX), Err(NoWord));
}

#[test]
fn pair_takes_the_smaller_size(rt: HostRuntime) {
    let mut long = [1, 2, 3];
    let mut short = [4];
    let mut pair = Pair::over(WordBank::over(&mut long), WordBank::over(&mut short));
    assert_eq!(rt; pair.swap(1, 4, 5), Ok(4));
    assert_eq!(rt; pair.load(2), Err(NoWord));
    assert_eq!(rt; pair.into_inner().1.load(0), Ok(5));
}

#[test]
fn banks_nest(rt: HostRuntime) {
    let mut words = [1, 2, 3];
    let mut bytes = [0; 17];
    let window = Window::over(WordBank::over(&mut words), 1, 2);
    let mut pair = Pair::over(window, ByteBank::over(&mut bytes));
    assert_eq!(rt; pair.size(), 4);
    assert_eq!(rt; pair.swap(3, 0, 31), Ok(0));
    assert_eq!(rt; bytes[15], 31);
}

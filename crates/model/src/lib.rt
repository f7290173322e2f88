//! The machine on paper: in specs/ the definition of every call and the promises, and the theorems about them.

#![tactic(auto)]

ghost use Rattle.model.specs.RefusalLaw.{RefusalLaw};
ghost use Rattle.model.specs.PromiseLaw.{PromiseLaw};
ghost use Rattle.model.specs.Promises.{PromisesHold};
ghost use Rattle.model.specs.Relation.{RelationLaw};
ghost use Rattle.model.specs.StepLaw.{StepsFollowRules};
ghost use Rattle.model.specs.Worked.{WorkedPoints};

/// A call is refused with the first refusal whose condition holds, and then changes nothing.
pub fn refusals_stand()
    ensures { RefusalLaw }
{}

/// A granted step is what the rule that applies says, and a rule applies unless the core is stuck; its place is to be in range.
pub fn relation_stands()
    ensures { RelationLaw }
{}

/// In every history, every granted step is what a rule says, and no rule says another.
pub fn steps_follow_rules()
    ensures { StepsFollowRules }
{}

/// In every history marks tell creations apart, "overtaken" is told exactly, and some order of whole operations explains the run.
pub fn promises_stand()
    ensures { PromisesHold }
{}

/// What the promises speak of is no less than it should be: every mark that is held is found, whole operations are whole, and the order of a
/// run that can be told by hand is the one told.
pub fn promises_are_sharp()
    ensures { PromiseLaw }
{}

/// The worked points: what the definitions come to in cases that can be told by hand.
pub fn points_stand()
    ensures { WorkedPoints }
{}

// What rules may ask of a set, by what it answers.
ghost use Rattle.std.specs.Prelude.{◌≡◌};
ghost use Rattle.operators.specs.Answers.{Answers};
ghost use Rattle.operators.specs.Windows.{WindowSized};

use super::{CardinalityEffect, KnownEmpty, LimitsPass, PartitionCount, WindowExpr};

/// Speaks of the kinds from 16 on, of windows, aggregates and the parameters of the kinds below. Every question is answered, also
/// of what does not fit, and asked again it is answered the same. A question by itself for each: their answers have types of their own.
pub trait OperatorSet {
    ghost answers: { Self → Answers };

    /// Whether a kind may have this parameter and so many children.
    fn fits(&self, kind: u8, parameter: u32, children: u8) -> bool
        ensures { result ≡ (answers self.now).fits kind parameter children };

    fn limits_pass(&self, kind: u8, parameter: u32) -> LimitsPass
        ensures { result ≡ (answers self.now).limits_pass kind parameter };

    fn takes_fetch(&self, kind: u8, parameter: u32) -> bool
        ensures { result ≡ (answers self.now).fetch kind parameter };

    fn takes_mark(&self, kind: u8, parameter: u32) -> bool
        ensures { result ≡ (answers self.now).mark kind parameter };

    fn effect(&self, kind: u8, parameter: u32) -> CardinalityEffect
        ensures { result ≡ (answers self.now).effect kind parameter };

    fn partitions(&self, kind: u8, parameter: u32) -> PartitionCount
        ensures { result ≡ (answers self.now).partitions kind parameter };

    fn known_empty(&self, kind: u8, parameter: u32) -> KnownEmpty
        ensures { result ≡ (answers self.now).known_empty kind parameter };

    /// The expressions of a window: 1 to 16, with numbers below 2^40.
    fn window(&self, parameter: u32) -> &[WindowExpr]
        ensures value { result.now ≡ (answers self.now).window parameter }
        ensures sized { WindowSized result.now };

    /// The number of an aggregate's group key.
    fn group(&self, parameter: u32) -> u32
        ensures { result ≡ (answers self.now).group parameter };

    /// Whether an aggregate gives each group's key once, and nothing else.
    fn plain_distinct(&self, parameter: u32) -> bool
        ensures { result ≡ (answers self.now).plain_distinct parameter };
}

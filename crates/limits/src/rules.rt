// The rules by their names, and calls of them.
ghost use Rattle.std.specs.Prelude.{◌≡◌, Some};
ghost use Rattle.limits.specs.Rules.{rule_name, rule_named};

use plan::Fault;
use std::fmt;
use std::str::FromStr;

/// An enum and no trait: the list of a run holds rules, and C names them by numbers.
#[derive(Clone, Copy, PartialEq, Eq, Debug)]
pub enum Rule {
    /// Limits go down as far as they can.
    Sink,
    /// A limit goes past windows, grown by what they look ahead.
    Grow,
    /// A limit becomes a hint on distinct aggregates.
    Hint,
}

/// The name of a rule.
impl fmt::Display for Rule {
    ghost output = { λ rule. Some (rule_name rule) };

    fn fmt<W: fmt::Write>(&self, f: &mut fmt::Formatter<W>) -> fmt::Result {
        f.write_str(match self {
            Rule::Sink => "sink",
            Rule::Grow => "grow",
            Rule::Hint => "hint",
        })
    }
}

/// No rule has this name.
#[derive(Clone, Copy, PartialEq, Eq, Debug)]
pub struct UnknownRule;

impl FromStr for Rule {
    type Err = UnknownRule;

    ghost from_str_gives = { λ name rule. rule ≡ rule_named name };

    fn from_str(name: &str) -> Result<Rule, UnknownRule> {
        match name.as_bytes() {
            b"sink" => Ok(Rule::Sink),
            b"grow" => Ok(Rule::Grow),
            b"hint" => Ok(Rule::Hint),
            _ => Err(UnknownRule),
        }
    }
}

/// A call to make, and its answer once it is made: the new node count, or a fault.
#[derive(Clone, Copy, PartialEq, Eq, Debug)]
pub struct RuleCall {
    pub rule: Rule,
    pub answer: Option<Result<usize, Fault>>,
}

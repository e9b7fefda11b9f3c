//! Why an item was an error, or was ignored, as `why` of `debug` prints it: the rule that `explain` names, and its sentence
//! without the values of the item. Definitions: `specs/Why.antt`.

ghost use Rattle.std.specs.Prelude.{◌≡◌};
ghost use Rattle.h2_explain_text.specs.Why.{error_name_line, error_why, head_line, ignored_why, why_lines};
ghost use Rattle.h2_explain_item.specs.Special.{rule_of_cause, rule_of_reason};

use crate::lines::{RuleLines, scope};
use crate::paint::{Paint, Role};
use h2_explain_item::diagnosis::special::{rule_of_cause, rule_of_reason};
use h2_explain_words::names::error_name;
use h2_io::{DeviceFault, Output, Text, texts};
use h2_spec::causes::Cause;
use h2_spec::connection::Phase;
use h2_spec::ignored::Ignored;
use h2_spec::special_cases::SpecialCase;

/// The two lines of an error.
#[derive(Clone, Copy)]
struct WhyError {
    phase: Phase,
    cause: Cause,
    case: Option<SpecialCase>,
}

#[tactic(auto, unfolding(crate::specs::Why::error_why))]
impl Text for WhyError {
    ghost text = { λ l. error_why l.phase l.cause (rule_of_cause l.cause l.case) };

    fn write_to<O: Output>(&self, output: &mut O) -> Result<(), DeviceFault> {
        let cause = self.cause;
        let scope = scope(self.phase);
        let code = error_name(cause.code());
        let rule = rule_of_cause(cause, self.case);
        let rest = RuleLines {
            paint: Paint(false),
            indent: "",
            role: Role::Error,
            rule,
            sentence: rule.sentence,
        };
        texts!(scope, code, ": ", cause.name(), rest).write_to(output)
    }
}

/// The two lines of an item that was ignored.
#[derive(Clone, Copy)]
struct WhyIgnored {
    reason: Ignored,
    case: Option<SpecialCase>,
}

#[tactic(auto, unfolding(crate::specs::Why::ignored_why))]
impl Text for WhyIgnored {
    ghost text = { λ l. ignored_why l.reason (rule_of_reason l.reason l.case) };

    fn write_to<O: Output>(&self, output: &mut O) -> Result<(), DeviceFault> {
        let reason = self.reason;
        let rule = rule_of_reason(reason, self.case);
        let rest = RuleLines {
            paint: Paint(false),
            indent: "",
            role: Role::Ignored,
            rule,
            sentence: rule.sentence,
        };
        texts!("ignored: ", reason.name(), rest).write_to(output)
    }
}

/// Why an item was an error or was ignored.
#[derive(Clone, Copy)]
pub struct WhyText {
    /// The phase of the connection after the item.
    pub phase: Phase,
    /// Why it was an error, if it was one.
    pub cause: Option<Cause>,
    /// Why it was ignored, if it was.
    pub ignored: Option<Ignored>,
    /// The special case that this is, if it is one.
    pub case: Option<SpecialCase>,
}

impl Text for WhyText {
    ghost text = { λ w. why_lines w.phase w.cause w.ignored w.case };

    fn write_to<O: Output>(&self, output: &mut O) -> Result<(), DeviceFault> {
        let (phase, case) = (self.phase, self.case);
        match (self.cause, self.ignored) {
            (Some(cause), _) => WhyError { phase, cause, case }.write_to(output),
            (None, Some(reason)) => WhyIgnored { reason, case }.write_to(output),
            (None, None) => "no error\n".write_to(output),
        }
    }
}

/// The first words of that: which error an item was, and its cause, or why it was ignored.
#[derive(Clone, Copy)]
pub struct WhyHead {
    /// The phase of the connection after the item.
    pub phase: Phase,
    /// Why it was an error, if it was one.
    pub cause: Option<Cause>,
    /// Why it was ignored, if it was.
    pub ignored: Option<Ignored>,
}

#[tactic(auto, unfolding(crate::specs::Why::error_name_line, crate::specs::Why::reason_name_line))]
impl Text for WhyHead {
    ghost text = { λ w. head_line w.phase w.cause w.ignored };

    fn write_to<O: Output>(&self, output: &mut O) -> Result<(), DeviceFault> {
        match (self.cause, self.ignored) {
            (Some(cause), _) => {
                let code = error_name(cause.code());
                texts!(scope(self.phase), code, ": ", cause.name(), "\n").write_to(output)
            }
            (None, Some(reason)) => texts!("ignored: ", reason.name(), "\n").write_to(output),
            (None, None) => "no error\n".write_to(output),
        }
    }
}

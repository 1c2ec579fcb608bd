// What is printed and said of rules.
ghost use Rattle.std.specs.Prelude.{◌≡◌, ◌++◌, ◌||◌, IfOk, OnOk};
ghost use Rattle.kc_monitor.specs.Verdicts.{verdict_of as verdict_text, is_broken as is_broken_rule};
ghost use Rattle.kc_kit_verdict.specs.Verdicts.{said_of, IsVerdict};

use kc_base::NoMemory;
use kc_kit_messages::put_broken;
use kc_monitor::{Monitor, is_broken, put_verdict};
use kc_rules::Rule;
use std::alloc::Global;

/// What is printed and said of the rules by which a run was checked, and whether one of them is broken.
#[derive(Drop)]
pub struct Verdict {
    pub text: Vec<u8>,
    pub diagnostic: Vec<u8>,
    pub is_broken: bool,
}

impl Verdict {
    // Puts what is printed and said of a rule behind that of others.
    fn put(
        &mut self,
        name: &str,
        text: &[u8],
        rule: &Rule,
        monitor: &Monitor,
    ) -> Result<(), NoMemory>
        ensures printed { OnOk result (self.new.text.items ≡ self.old.text.items ++ verdict_text rule.now monitor.now.life monitor.now.tally) }
        ensures said { OnOk result (self.new.diagnostic.items ≡ self.old.diagnostic.items ++ said_of name.now text.now rule.now monitor.now.tally) }
        ensures broken { OnOk result (self.new.is_broken ≡ (self.old.is_broken || is_broken_rule rule.now monitor.now.tally)) }
    {
        put_verdict(&mut self.text, rule, monitor.lives(), monitor.tally())?;
        if is_broken(rule, monitor.tally()) {
            self.is_broken = true;
            put_broken(&mut self.diagnostic, name.as_bytes(), text, rule.line)?;
        }
        Ok(())
    }
}

/// The verdict of rules, each with its monitor, by the name and the text of the file that has them.
pub(crate) fn verdict_of(
    alloc: Global,
    name: &str,
    text: &[u8],
    rules: &[Rule],
    monitors: &[Monitor],
) -> Result<Verdict, NoMemory>
    ensures { IfOk result (IsVerdict name.now text.now rules.now monitors.now) }
{
    let mut verdict = Verdict {
        text: Vec::new(alloc),
        diagnostic: Vec::new(alloc),
        is_broken: false,
    };
    let mut left = rules;
    let mut ahead = monitors;
    while let [rule, rest @ ..] = left {
        match ahead {
            [] => return Ok(verdict),
            [monitor, others @ ..] => {
                verdict.put(name, text, rule, monitor)?;
                ahead = others;
            }
        }
        left = rest;
    }
    Ok(verdict)
}

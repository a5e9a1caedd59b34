ghost use Rattle.std.specs.Prelude.{◌≡◌, ◌∷◌, ◌++◌, [], OnOk, OnErr};
ghost use Rattle.std.specs.Option.{option_map};
ghost use Rattle.mst_policy.specs.Lines.{line_of, promise_in, risk_in};

use crate::expectation::Promise;
use crate::read::parse_policy_line;
use crate::risk::{RiskLine, Said};
use crate::wording::Wording;
use mst_lang::Fault;
use std::alloc::{AllocError, Global};
use std::marker::Model;

/// A line of a policy that is neither blank nor a comment.
#[derive(Drop)]
pub struct PolicyLine {
    /// Its number among all lines.
    pub number: u64,
    /// Its words where it is read, else none.
    pub words: Wording,
    /// What it says, or the least fault of it.
    pub read: Result<Said, Fault>,
}

impl PolicyLine {
    /// Its promise, if it can be read and is one.
    pub fn promise(&self) -> Option<&Promise>
        ensures { option_map (λ promise. promise.now) result ≡ promise_in self.now.read }
    {
        match &self.read {
            Ok(Said::Promise(promise)) => Some(promise),
            _ => None,
        }
    }

    /// What it says of a risk, if it can be read and is of one.
    pub fn risk(&self) -> Option<&RiskLine>
        ensures { option_map (λ risk. risk.now) result ≡ risk_in self.now.read }
    {
        match &self.read {
            Ok(Said::Risk(risk)) => Some(risk),
            _ => None,
        }
    }
}

/// The lines of a policy that are neither blank nor comments, in their order.
#[derive(Drop)]
pub struct Policy {
    lines: Vec<PolicyLine>,
}

impl Model for Policy {
    ghost use Rattle.std.specs.Prelude.{List};
    ghost use Rattle.mst_policy.specs.declared.policy.PolicyLine.{PolicyLine as Line};

    ghost Value = { List Line };

    ghost view = { λ p. p.lines.items };
}

impl Policy {
    /// A policy without lines.
    pub fn new(alloc: Global) -> Policy
        ensures { result ≡ [] }
    {
        Policy {
            lines: Vec::new(alloc),
        }
    }

    /// Reads the next line, which has this number and comes without its end. `AllocError`: memory was wanted and refused, and
    /// the policy is as it was.
    pub fn read(&mut self, alloc: Global, number: u64, line: &[u8]) -> Result<(), AllocError>
        ensures ok { OnOk result (self.new ≡ self.old ++ line_of number line.now) }
        ensures err { OnErr result (self.new ≡ self.old) }
    {
        match parse_policy_line(alloc, line)? {
            Ok(None) => Ok(()),
            Ok(Some(said)) => {
                let words = Wording::of(alloc, line)?;
                self.push(PolicyLine {
                    number,
                    words,
                    read: Ok(said),
                })
            }
            Err(fault) => self.push(PolicyLine {
                number,
                words: Wording::none(alloc),
                read: Err(fault),
            }),
        }
    }

    /// Puts a line behind the others, or changes nothing.
    fn push(&mut self, line: PolicyLine) -> Result<(), AllocError>
        ensures ok { OnOk result (self.new ≡ self.old ++ line ∷ []) }
        ensures err { OnErr result (self.new ≡ self.old) }
    {
        self.lines.push(line)?;
        Ok(())
    }

    /// The lines.
    pub fn as_slice(&self) -> &[PolicyLine]
        ensures { result.now ≡ self.now }
    {
        self.lines.as_slice()
    }
}

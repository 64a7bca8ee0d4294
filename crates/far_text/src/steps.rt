//! Steps of the evacuator until they are made, and the logs of scripts among the bytes of writes.

ghost use Rattle.std.specs.Prelude.{◌≡◌, ◌≢◌, ◌≤◌, nat_le, length, take, drop, cond, true, Ok, Some, None, IfOk, IfErr, IfSome};
ghost use Rattle.std.specs.Option.{option_map};
ghost use Rattle.far_text.specs.declared.command.TheConstants.{MOST_CHOSEN};
ghost use Rattle.far_text.specs.Command.{Script, Select};
ghost use Rattle.far_text.specs.Cursor.{words_in};
ghost use Rattle.far_text.specs.Grammar.{logs_of, limited};
ghost use Rattle.far_text.specs.Spelled.{choice_spelled, step_spelled};
ghost use Rattle.far_text.specs.Records.{step_in, IsStepWithin};

use crate::command::{Choice, LOG_NAMES, MOST_CHOSEN, Policy, Step};
use crate::cursor::{Rest, number_first};
use crate::hex_word::{HexBytes, LONGEST_BYTES};
use crate::number::Number;
use std::alloc::AllocError;

/// A step: its policy and its numbers, in the order of its line. The last two of a script are where its logs begin among the
/// bytes of all writes and scripts, and how many they are.
#[derive(Clone, Copy)]
pub enum StepRecord {
    Select(Policy, u8),
    Script(u8, u32, u32),
    Mark(Number),
    Wait,
    Evacuate(Number),
    Abort,
    Round(Policy, u8, Number),
}

fn may_choose(most: u8) -> bool
    ensures { result ≡ nat_le most MOST_CHOSEN }
{
    most <= MOST_CHOSEN
}

// Adds the logs that words print, one behind the other, until one is no log, or there are too many. Whether all are added.
fn add_each_log(bytes: &mut HexBytes, words: &[u8]) -> Result<bool, AllocError>
    ensures value { IfOk result (λ known. logs_of (words_in words.now) ≡ cond known (Some (drop (length bytes.old) bytes.new)) None) }
    ensures kept { take (length bytes.old) bytes.new ≡ bytes.old }
    ensures more { length bytes.old ≤ length bytes.new }
{
    let most = bytes.len() + LONGEST_BYTES;
    let mut rest = Rest::Words(words);
    while let Rest::Words(text) = rest {
        let Some((log, after)) = number_first(text) else {
            return Ok(false);
        };
        if log >= LOG_NAMES || bytes.len() == most {
            return Ok(false);
        }
        bytes.push(log as u8)?;
        rest = after;
    }
    Ok(true)
}

// Adds the logs that words print, if they are logs. Whether they are; if not, nothing has changed.
fn add_logs(bytes: &mut HexBytes, words: &[u8]) -> Result<bool, AllocError>
    ensures value { IfOk result (λ known. logs_of (words_in words.now) ≡ cond known (Some (drop (length bytes.old) bytes.new)) None) }
    ensures kept { take (length bytes.old) bytes.new ≡ bytes.old }
    ensures same { result ≢ Ok true → bytes.new ≡ bytes.old }
{
    let before = bytes.len();
    match add_each_log(bytes, words) {
        Ok(true) => Ok(true),
        other => {
            bytes.truncate(before);
            other
        }
    }
}

// The record of a script, if these words are logs. They are added to the bytes before.
fn script_record(
    bytes: &mut HexBytes,
    words: &[u8],
    most: u8,
) -> Result<Option<StepRecord>, AllocError>
    requires chosen { most ≤ MOST_CHOSEN }
    ensures value { IfOk result (λ found. option_map (step_in bytes.new) found ≡ option_map (λ logs. Select (Script logs) most) (logs_of (words_in words.now))) }
    ensures within { IfOk result (λ found. IfSome found (IsStepWithin (length bytes.new))) }
    ensures kept { take (length bytes.old) bytes.new ≡ bytes.old }
    ensures none { result ≡ Ok None → bytes.new ≡ bytes.old }
    ensures fault { IfErr result (λ _. bytes.new ≡ bytes.old) }
{
    let start = bytes.len() as u32;
    if !add_logs(bytes, words)? {
        return Ok(None);
    }
    let count = bytes.len() as u32 - start;
    Ok(Some(StepRecord::Script(most, start, count)))
}

// The record of a choice, unless more logs would be chosen than may be. The logs of a script are added to the bytes before.
fn select_record(
    bytes: &mut HexBytes,
    choice: Choice,
    most: u8,
) -> Result<Option<StepRecord>, AllocError>
    ensures value { IfOk result (λ found. option_map (step_in bytes.new) found ≡ limited most (option_map (λ choice. Select choice most) (choice_spelled choice.entry))) }
    ensures within { IfOk result (λ found. IfSome found (IsStepWithin (length bytes.new))) }
    ensures kept { take (length bytes.old) bytes.new ≡ bytes.old }
    ensures none { result ≡ Ok None → bytes.new ≡ bytes.old }
    ensures fault { IfErr result (λ _. bytes.new ≡ bytes.old) }
{
    if !may_choose(most) {
        return Ok(None);
    }
    match choice {
        Choice::By(policy) => Ok(Some(StepRecord::Select(policy, most))),
        Choice::Script(words) => script_record(bytes, words, most),
    }
}

/// The record of a step, unless it chooses more logs than may be chosen, or what is no log. The logs of a script are added to
/// the bytes before.
pub fn step_record(bytes: &mut HexBytes, step: Step) -> Result<Option<StepRecord>, AllocError>
    ensures value { IfOk result (λ found. option_map (step_in bytes.new) found ≡ step_spelled step.entry) }
    ensures within { IfOk result (λ found. IfSome found (IsStepWithin (length bytes.new))) }
    ensures kept { take (length bytes.old) bytes.new ≡ bytes.old }
    ensures none { result ≡ Ok None → bytes.new ≡ bytes.old }
    ensures fault { IfErr result (λ _. bytes.new ≡ bytes.old) }
{
    Ok(Some(match step {
        Step::Select { choice, most } => return select_record(bytes, choice, most),
        Step::Mark { count } => StepRecord::Mark(Number::of(count)),
        Step::Wait => StepRecord::Wait,
        Step::Evacuate { count } => StepRecord::Evacuate(Number::of(count)),
        Step::Abort => StepRecord::Abort,
        Step::Round {
            policy,
            most,
            turns,
        } => {
            if !may_choose(most) {
                return Ok(None);
            }
            StepRecord::Round(policy, most, Number::of(turns))
        }
    }))
}

impl StepRecord {
    ghost use Rattle.std.specs.Prelude.{◌≡◌, length};
    ghost use Rattle.far_text.specs.Command.{as_step};
    ghost use Rattle.far_text.specs.Records.{step_in, IsStepWithin};

    /// The step that it keeps. The logs of a script stand among these bytes.
    pub fn step(self, bytes: &[u8]) -> Step<'_>
        requires { IsStepWithin (length bytes.now) self }
        ensures { as_step result ≡ step_in bytes.now self }
    {
        match self {
            StepRecord::Select(policy, most) => {
                let choice = Choice::By(policy);
                Step::Select { choice, most }
            }
            StepRecord::Script(most, start, count) => {
                let start = start as usize;
                let choice = Choice::Script(&bytes[start..start + count as usize]);
                Step::Select { choice, most }
            }
            StepRecord::Mark(count) => {
                let count = count.value();
                Step::Mark { count }
            }
            StepRecord::Wait => Step::Wait,
            StepRecord::Evacuate(count) => {
                let count = count.value();
                Step::Evacuate { count }
            }
            StepRecord::Abort => Step::Abort,
            StepRecord::Round(policy, most, turns) => {
                let turns = turns.value();
                Step::Round {
                    policy,
                    most,
                    turns,
                }
            }
        }
    }
}

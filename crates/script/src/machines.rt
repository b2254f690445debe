// The machine that a script makes, and what is printed of it.
ghost use Rattle.std.specs.Prelude.{◌≡◌, ◌≤◌, true, [], vec_len, Some};
ghost use Rattle.std.specs.Option.{option_map};
ghost use Rattle.frames.specs.Figures.{figure_number};
ghost use Rattle.guard.specs.Calls.{count_in, drain, number_in, request_of, stopped_in_answer, word_in};
ghost use Rattle.guard.specs.Steps.{is_answer_to};
ghost use Rattle.script.specs.Machines.{call_after, call_count, call_number, call_stop, call_text, call_word, call_words, copied_text, frames_shown, log_figures, made_text, new_machine, new_policies, parts_text};
ghost use Rattle.script.specs.Supplies.{supplied_beside, supplied_words};

use crate::commands::HexWords;
use crate::supplied::Supplied;
use frames::figures::{BadFigures, LogFigures};
use guard::calls::{Answer, Call};
use machine::machine::Machine;
use memory::traits::Memory;
use paging::parts::Split;
use policy::append_only::AppendOnly;
use policy::free::Free;
use policy::pair::Pair;
use policy::write_once::WriteOnce;
use std::fmt;
use text::printing::Hexadecimal;

// The policies of a machine: its regions 0, 1 and 2.
pub(crate) type Policies = Pair<WriteOnce, Pair<AppendOnly, Free>>;

// New policies.
fn new_policies() -> Policies
    ensures { result ≡ new_policies }
{
    Pair::new(WriteOnce::new(), Pair::new(AppendOnly::new(), Free::new()))
}

// A machine over a supplied memory, and the figures on which it was made.
#[derive(Drop)]
pub(crate) struct Made {
    pub(crate) machine: Machine<Supplied, Policies>,
    pub(crate) figures: LogFigures,
    ghost few: { figures.frames ≤ 256 },
}

impl Made {
    // A machine over a memory, with so many log frames from a first one on.
    #[tactic(auto, unfolding(crate::specs::Machines::new_machine))]
    pub(crate) fn new(memory: Supplied, first: u64, count: u64) -> Made
        ensures is { result.machine ≡ new_machine (supplied_words memory) (supplied_beside memory) first count }
        ensures figure { result.figures ≡ log_figures (frames_shown (supplied_words memory)) first count }
    {
        let figures = LogFigures {
            frames: memory.frames(),
            first,
            count,
        };
        Made {
            machine: Machine::new(memory, new_policies(), first, count),
            figures,
        }
    }

    // Carries out a call on it. It is no drain, and copies out no words.
    #[tactic(auto, unfolding(crate::specs::Machines::call_number, crate::specs::Machines::call_stop, crate::specs::Machines::call_word, crate::specs::Machines::call_count, crate::specs::Machines::call_after), using(crate::proofs::Copied::nothing_copied))]
    pub(crate) fn perform(&mut self, call: Call<'_>) -> Answer
        ensures number { number_in result ≡ call_number (request_of call.entry) self.old.machine }
        ensures stops { stopped_in_answer result ≡ call_stop (request_of call.entry) self.old.machine }
        ensures word { word_in result ≡ call_word (request_of call.entry) self.old.machine }
        ensures count { count_in result ≡ call_count (request_of call.entry) self.old.machine }
        ensures words { call_words (request_of call.entry) self.old.machine ≡ [] }
        ensures form { is_answer_to (request_of call.entry) result ≡ true }
        ensures after { self.new.machine ≡ call_after (request_of call.entry) self.old.machine }
        ensures same { self.new.figures ≡ self.old.figures }
    {
        self.machine.perform(call)
    }

    // Drains its journal into a list, of which the words that were copied out are left.
    #[tactic(auto, unfolding(crate::specs::Machines::call_number, crate::specs::Machines::call_stop, crate::specs::Machines::call_word, crate::specs::Machines::call_count, crate::specs::Machines::call_words, crate::specs::Machines::call_after), using(crate::proofs::Told::back, crate::proofs::Copied::front, crate::proofs::Copied::held_long))]
    pub(crate) fn drain(&mut self, list: &mut Vec<u64>) -> Answer
        ensures number { number_in result ≡ call_number (drain (vec_len list.old)) self.old.machine }
        ensures stops { stopped_in_answer result ≡ call_stop (drain (vec_len list.old)) self.old.machine }
        ensures word { word_in result ≡ call_word (drain (vec_len list.old)) self.old.machine }
        ensures count { count_in result ≡ call_count (drain (vec_len list.old)) self.old.machine }
        ensures words { list.new.items ≡ call_words (drain (vec_len list.old)) self.old.machine }
        ensures few { vec_len list.new ≤ vec_len list.old }
        ensures form { is_answer_to (drain (vec_len list.old)) result ≡ true }
        ensures after { self.new.machine ≡ call_after (drain (vec_len list.old)) self.old.machine }
        ensures same { self.new.figures ≡ self.old.figures }
    {
        match self.machine.drain(list.as_mut_slice()) {
            Ok(count) => {
                list.truncate(count as usize);
                Answer::Drained(count)
            }
            Err(refusal) => {
                list.clear();
                Answer::Refused(refusal)
            }
        }
    }
}

// The answer of a call, as it is printed.
#[derive(Clone, Copy)]
pub(crate) struct Outcome(pub(crate) Answer);

impl fmt::Display for Outcome {
    ghost output = { λ o. Some (call_text (number_in o.0) (stopped_in_answer o.0) (word_in o.0) (count_in o.0)) };

    fn fmt<W: fmt::Write>(&self, f: &mut fmt::Formatter<W>) -> fmt::Result {
        match self.0 {
            Answer::Done => write!(f, "ok"),
            Answer::Word(word) => write!(f, "{}", Hexadecimal(word)),
            Answer::Drained(count) => write!(f, "{count} words"),
            Answer::Refused(refusal) => write!(f, "refused {}", u8::from(refusal)),
            Answer::Faulted(fault) => match fault.stopped() {
                None => write!(f, "refused {}", u8::from(fault)),
                Some(stopped) => write!(
                    f,
                    "refused {} at level {} in table {}",
                    u8::from(fault),
                    u8::from(stopped.fault.level),
                    stopped.fault.table
                ),
            },
        }
    }
}

// The words that a call copied out, as they are printed.
#[derive(Clone, Copy)]
pub(crate) struct Copied<'a>(pub(crate) &'a [u64]);

impl fmt::Display for Copied<'_> {
    ghost output = { λ c. Some (copied_text c.0.now) };

    fn fmt<W: fmt::Write>(&self, f: &mut fmt::Formatter<W>) -> fmt::Result {
        if self.0.is_empty() {
            return Ok(());
        }
        write!(f, "\n {}", HexWords(self.0))
    }
}

// What came of making a machine, as it is printed.
#[derive(Clone, Copy)]
pub(crate) struct Making(pub(crate) Option<BadFigures>);

impl fmt::Display for Making {
    ghost output = { λ m. Some (made_text (option_map figure_number m.0)) };

    fn fmt<W: fmt::Write>(&self, f: &mut fmt::Formatter<W>) -> fmt::Result {
        match self.0 {
            None => write!(f, "made"),
            Some(bad) => write!(f, "refused {}", u8::from(bad)),
        }
    }
}

// The parts of an address, as they are printed.
#[derive(Clone, Copy)]
pub(crate) struct Parts(pub(crate) Split);

impl fmt::Display for Parts {
    ghost output = { λ p. Some (parts_text p.0) };

    fn fmt<W: fmt::Write>(&self, f: &mut fmt::Formatter<W>) -> fmt::Result {
        let Split {
            four,
            three,
            two,
            one,
            offset,
        } = self.0;
        write!(f, "{four} {three} {two} {one} {offset}")
    }
}

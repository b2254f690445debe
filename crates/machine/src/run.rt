// Carrying out a list of calls and drains on a new machine.

ghost use Rattle.std.specs.Prelude.{◌≡◌, ◌≤◌, IsTrue, length};
ghost use Rattle.guard.specs.States.{good, new_state};
ghost use Rattle.guard.specs.Steps.{piece, with_piece};
ghost use Rattle.guarantee.specs.Guarantee.{Guaranteed, Happens};
ghost use Rattle.machine.specs.Runs.{RunOf, drained_in, event_of, task_request};

use crate::machine::Machine;
use guard::calls::{Answer, Call};
use memory::traits::Memory;
use policy::traits::Policy;

/// What a run carries out: a call, or a drain into what is left of the archive.
#[derive(Clone, Copy, Debug)]
pub enum Task<'a> {
    Call(Call<'a>),
    Drain,
}

// How many words a call copied out.
fn drained_in(answer: Answer) -> u64
    ensures { result ≡ drained_in answer }
{
    match answer {
        Answer::Drained(count) => count,
        _ => 0,
    }
}

impl<M: Memory, P: Policy> Machine<M, P> {
    // Carries out a task; a drain fills the front of the list.
    #[tactic(auto, using(crate::proofs::Running::quiet, crate::proofs::Running::drained_counts, crate::proofs::Running::fits))]
    fn carry_out(&mut self, task: Task<'_>, list: &mut [u64]) -> Answer
        ensures happens { Happens P.means (event_of (task_request task.entry (length list.old)) result self.old) self.old self.new }
        ensures list { list.new ≡ with_piece (piece (task_request task.entry (length list.old)) result self.old) list.old }
        ensures count { drained_in result ≡ length (piece (task_request task.entry (length list.old)) result self.old) }
        ensures within { drained_in result ≤ length list.old }
    {
        match task {
            Task::Call(call) => self.perform(call),
            Task::Drain => self.drain(list).into(),
        }
    }

    // Carries out tasks in their order, and says how many words were copied out. Each answer is put into the list for them, as far as it has room.
    fn carry_out_all(
        &mut self,
        tasks: &[Task<'_>],
        answers: &mut [Answer],
        archive: &mut [u64],
    ) -> usize
        ensures { RunOf P.means tasks.now self.old self.new answers.old answers.new archive.old archive.new result }
    {
        let mut drained = 0;
        for (index, task) in tasks.iter().enumerate() {
            let answer = self.carry_out(*task, &mut archive[drained..]);
            if index < answers.len() {
                answers[index] = answer;
            }
            drained += drained_in(answer) as usize;
        }
        drained
    }
}

/// A machine after a run, and how many words of the archive the run filled.
#[derive(Drop)]
pub struct Ran<M: Memory, P> {
    pub machine: Machine<M, P>,
    pub drained: usize,
}

/// Makes a machine and carries out tasks on it, in their order. Their answers are put into the front of one list, and those for which it has no room are not kept. The words that
/// drains copy out are put into the front of an archive, one piece behind the other; a drain for which it has too little left is refused with 34, and its words stay held.
pub fn run<M: Memory, P: Policy>(
    memory: M,
    policy: P,
    first: u64,
    count: u64,
    tasks: &[Task<'_>],
    answers: &mut [Answer],
    archive: &mut [u64],
) -> Ran<M, P>
    ensures ran { RunOf P.means tasks.now (new_state M.means memory first count policy) result.machine answers.old answers.new archive.old archive.new result.drained }
    ensures guarantee { IsTrue (good (M.means.size memory) first count) → Guaranteed P.means (new_state M.means memory first count policy) }
{
    let mut machine = Machine::new(memory, policy, first, count);
    let drained = machine.carry_out_all(tasks, answers, archive);
    Ran { machine, drained }
}

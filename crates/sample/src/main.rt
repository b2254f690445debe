//! The worked session, carried out by `run` over a list of words and over a list of bytes: each call with its answer, the words drained, and what they
//! play back to.

#![tactic(auto)]

use frames::figures::LogFigures;
use frames::kinds::FrameKind;
use guard::calls::{Answer, Call};
use journal::player::play;
use machine::run::{Task, run};
use memory::kinds::{Bytes, Words};
use memory::traits::Memory;
use policy::append_only::AppendOnly;
use policy::free::Free;
use policy::pair::Pair;
use policy::write_once::WriteOnce;
use text::printing::Hexadecimal;

// Sixteen frames, of which the last is the log.
const FRAMES: usize = 16;

const FRAME_WORDS: usize = memory::traits::FRAME_WORDS as usize;

const FIGURES: LogFigures = LogFigures {
    frames: FRAMES as u64,
    first: 15,
    count: 1,
};

// The calls of the session, and a drain at its end.
const TASKS: [Task<'static>; 15] = [
    Task::Call(Call::Declare { frame: 1, level: 4 }),
    Task::Call(Call::Declare { frame: 2, level: 3 }),
    Task::Call(Call::Declare { frame: 3, level: 2 }),
    Task::Call(Call::Declare { frame: 4, level: 1 }),
    Task::Call(Call::Set {
        table: 1,
        index: 0,
        entry: 0x2003,
    }),
    Task::Call(Call::Set {
        table: 2,
        index: 0,
        entry: 0x3003,
    }),
    Task::Call(Call::Set {
        table: 3,
        index: 0,
        entry: 0x4003,
    }),
    Task::Call(Call::Set {
        table: 4,
        index: 0,
        entry: 0x8000_0000_0000_5003,
    }),
    Task::Call(Call::LoadRoot { value: 0x1000 }),
    Task::Call(Call::Store {
        address: 8,
        value: 0x2a,
    }),
    Task::Call(Call::Load { address: 8 }),
    Task::Call(Call::Set {
        table: 4,
        index: 1,
        entry: 0x8000_0000_0000_4003,
    }),
    Task::Call(Call::Store {
        address: 0x1000,
        value: 1,
    }),
    Task::Call(Call::Fetch { address: 8 }),
    Task::Drain,
];

// A call of the session, with words in hexadecimal as its page has them; other calls as they are.
fn print_task(rt: &HostRuntime, task: Task<'_>) -> anyhow::Result<()> {
    match task {
        Task::Drain => print!(rt; "drain")?,
        Task::Call(Call::Declare { frame, level }) => print!(rt; "declare {frame} {level}")?,
        Task::Call(
            Call::Set {
                table,
                index,
                entry,
            },
        ) => { print!(rt; "set {table} {index} {}", Hexadecimal(entry))? }
        Task::Call(Call::LoadRoot { value }) => print!(rt; "cr3 {}", Hexadecimal(value))?,
        Task::Call(Call::Load { address }) => print!(rt; "load {}", Hexadecimal(address))?,
        Task::Call(Call::Store { address, value }) => {
            print!(rt; "store {} {}", Hexadecimal(address), Hexadecimal(value))?
        }
        Task::Call(Call::Fetch { address }) => print!(rt; "fetch {}", Hexadecimal(address))?,
        Task::Call(other) => print!(rt; "{other:?}")?,
    }
    Ok(())
}

// What came of it.
fn print_answer(rt: &HostRuntime, answer: Answer) -> anyhow::Result<()> {
    match answer {
        Answer::Done => println!(rt; "ok")?,
        Answer::Word(word) => println!(rt; "{}", Hexadecimal(word))?,
        Answer::Drained(count) => println!(rt; "{count} words")?,
        Answer::Refused(refusal) => println!(rt; "refused {}: {refusal}", u8::from(refusal))?,
        Answer::Faulted(fault) => println!(rt; "refused {}: {fault}", u8::from(fault))?,
    }
    Ok(())
}

// What the drained words play back to: each frame that is not plain, with its words that are not zero.
fn print_played(rt: &HostRuntime, journal: &[u64]) -> anyhow::Result<()> {
    let mut words = [0; FRAMES * FRAME_WORDS];
    let mut kinds = [FrameKind::Plain; FRAMES];
    match play(journal, FIGURES, &mut words, &mut kinds) {
        Ok(records) => println!(rt; "played: {records} records")?,
        Err(fault) => println!(rt; "not played: {fault}")?,
    }
    for frame in 0..FRAMES {
        if kinds[frame] != FrameKind::Plain {
            print!(rt; "frame {frame}, {:?}:", kinds[frame])?;
            for index in 0..FRAME_WORDS {
                let word = words[FRAME_WORDS * frame + index];
                if word != 0 {
                    print!(rt; " {} at {index}", Hexadecimal(word))?;
                }
            }
            println!(rt; "")?;
        }
    }
    Ok(())
}

// The session over a memory.
fn print_session<M: Memory + Drop>(rt: &HostRuntime, title: &str, memory: M) -> anyhow::Result<()> {
    let policy = Pair::new(WriteOnce::new(), Pair::new(AppendOnly::new(), Free::new()));
    let mut answers = [Answer::Done; TASKS.len()];
    let mut archive = [0; 64];
    let ran = run(
        memory,
        policy,
        FIGURES.first,
        FIGURES.count,
        &TASKS,
        &mut answers,
        &mut archive,
    );
    println!(rt; "over {title}")?;
    for (task, answer) in TASKS.iter().zip(answers.iter()) {
        print_task(rt, *task)?;
        print!(rt; ": ")?;
        print_answer(rt, *answer)?;
    }
    let drained = &archive[..ran.drained];
    print!(rt; "drained:")?;
    for word in drained {
        print!(rt; " {}", Hexadecimal(*word))?;
    }
    println!(rt; "")?;
    print_played(rt, drained)
}

fn main(rt: HostRuntime) -> anyhow::Result<()> {
    let mut words = [0; FRAMES * FRAME_WORDS];
    print_session(&rt, "a list of words", Words::new(&mut words))?;
    let mut bytes = [0; 8 * FRAMES * FRAME_WORDS];
    print_session(&rt, "a list of bytes", Bytes::new(&mut bytes))
}

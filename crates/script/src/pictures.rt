// What playing a journal made, as it is printed.
ghost use Rattle.std.specs.Prelude.{◌≡◌, ◌&&◌, drop, take, vec_items, Some};
ghost use Rattle.std.specs.List.{list_any};
ghost use Rattle.frames.specs.Kinds.{keeps_words};
ghost use Rattle.journal.specs.Playing.{fault_says};
ghost use Rattle.script.specs.Pictures.{frames_text, kinds_text, nonzero, outcome_text, picture_text, played_text, words_text};

use frames::kinds::FrameKind;
use journal::faults::PlayFault;
use memory::traits::FRAME_WORDS;
use std::fmt;
use text::printing::Hexadecimal;

// The kinds of frames by their numbers, each behind a blank.
#[derive(Clone, Copy)]
struct Kinds<'a>(&'a [FrameKind]);

impl fmt::Display for Kinds<'_> {
    ghost output = { λ k. Some (kinds_text k.0.now) };

    fn fmt<W: fmt::Write>(&self, f: &mut fmt::Formatter<W>) -> fmt::Result {
        for &kind in self.0 {
            write!(f, " {}", u8::from(kind))?;
        }
        Ok(())
    }
}

// The words of a frame that are not zero, each with its place behind a blank.
#[derive(Clone, Copy)]
struct FrameWords<'a>(&'a [u64]);

impl fmt::Display for FrameWords<'_> {
    ghost output = { λ w. Some (words_text w.0.now) };

    fn fmt<W: fmt::Write>(&self, f: &mut fmt::Formatter<W>) -> fmt::Result {
        for (index, &word) in self.0.iter().enumerate() {
            if word != 0 {
                write!(f, " {index}={}", Hexadecimal(word))?;
            }
        }
        Ok(())
    }
}

// Whether a word is not zero.
fn any_nonzero(words: &[u64]) -> bool
    ensures { result ≡ list_any nonzero words.now }
{
    words.iter().any(|word| *word != 0)
}

// Whether a frame of that kind with these words is listed.
fn is_listed(kind: FrameKind, words: &[u64]) -> bool
    ensures { result ≡ (keeps_words (Some kind) && list_any nonzero words.now) }
{
    kind.keeps_words() && any_nonzero(words)
}

// The words of frames, and the kind of each.
#[derive(Clone, Copy)]
struct Picture<'a> {
    words: &'a [u64],
    kinds: &'a [FrameKind],
}

// The words of the first frame, and those of the others.
fn split_frame(words: &[u64]) -> (&[u64], &[u64])
    ensures here { result.0.now ≡ take 512 words.now }
    ensures behind { result.1.now ≡ drop 512 words.now }
{
    const FRAME: usize = FRAME_WORDS as usize;
    if words.len() < FRAME {
        return (words, &[]);
    }
    words.split_at(FRAME)
}

// A line for each frame that is listed.
#[derive(Clone, Copy)]
struct Frames<'a>(Picture<'a>);

impl fmt::Display for Frames<'_> {
    ghost output = { λ p. Some (frames_text p.0.words.now p.0.kinds.now) };

    fn fmt<W: fmt::Write>(&self, f: &mut fmt::Formatter<W>) -> fmt::Result {
        let Picture { words, kinds } = self.0;
        let mut rest = words;
        for (frame, &kind) in kinds.iter().enumerate() {
            let (here, behind) = split_frame(rest);
            if is_listed(kind, here) {
                write!(f, "\n  frame {frame}:{}", FrameWords(here))?;
            }
            rest = behind;
        }
        Ok(())
    }
}

// The kinds of all frames, and the frames that are listed.
impl fmt::Display for Picture<'_> {
    ghost output = { λ p. Some (picture_text p.words.now p.kinds.now) };

    #[tactic(auto, unfolding(crate::specs::Pictures::picture_text))]
    fn fmt<W: fmt::Write>(&self, f: &mut fmt::Formatter<W>) -> fmt::Result {
        write!(f, "\n  kinds{}{}", Kinds(self.kinds), Frames(*self))
    }
}

/// A journal that was played to its end: how many records there were, and what they made of words and of the kinds of frames.
#[derive(Debug, Drop)]
pub struct Played {
    pub records: u64,
    pub words: Vec<u64>,
    pub kinds: Vec<FrameKind>,
}

impl fmt::Display for Played {
    ghost output = { λ p. Some (played_text p.records (picture_text (vec_items p.words) (vec_items p.kinds))) };

    fn fmt<W: fmt::Write>(&self, f: &mut fmt::Formatter<W>) -> fmt::Result {
        let picture = Picture {
            words: self.words.as_slice(),
            kinds: self.kinds.as_slice(),
        };
        write!(f, "{} records played{picture}", self.records)
    }
}

/// Why a journal was not played, or not to its end.
#[derive(Clone, Copy)]
pub struct Refusal(pub PlayFault);

impl fmt::Display for Refusal {
    ghost output = { λ r. Some (outcome_text (fault_says r.0)) };

    fn fmt<W: fmt::Write>(&self, f: &mut fmt::Formatter<W>) -> fmt::Result {
        let number = u8::from(self.0);
        match self.0.place() {
            None => write!(f, "refused {number}"),
            Some(at) => write!(
                f,
                "refused {number} at record {}, place {}",
                at.records, at.words
            ),
        }
    }
}

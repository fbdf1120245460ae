//! `segments`.

ghost use Rattle.std.specs.Prelude.{◌≡◌, ◌<◌, ◌+◌, ◌-◌, length, IfOk};
ghost use Rattle.std.specs.List.{All, AllZip, flat_map};
ghost use Rattle.mt_text_spec.specs.Lines.{closed};
ghost use Rattle.mt_corpus_spec.specs.Images.{AreImagesBy};
ghost use Rattle.mt_corpus.specs.Held.{AreLive};
ghost use Rattle.mt_script_spec.specs.Commands as spec;
ghost use Rattle.mt_session_spec.specs.Settings.{Setting, images_of};
ghost use Rattle.mt_shell.specs.Listed.{line_listed, lines_listed, tokens_listed};
ghost use Rattle.mt_shell.specs.Answers.{AnswersAlone};

use super::State;
use mt_answer::{Reply, count_line};
use mt_base::{List, NoMemory};
use mt_pattern::PatternShop;
use mt_segment::Segment;
use std::alloc::Global;

impl<P: PatternShop> State<P> {
    /// `segments`: how many texts and tokens each group has.
    pub fn segments(&self) -> Reply
        ghost setting: { Setting }
        requires { AreImagesBy (images_of setting) self.now.taken }
        ensures { AnswersAlone setting self.now.held spec.Segments result self.now.held }
    {
        let (segments, live) = self.corpus.held();
        match group_lines(self.alloc, segments.as_slice(), live.as_slice()) {
            Ok(lines) => Reply::Lines(lines),
            Err(NoMemory) => Reply::NoMemory,
        }
    }
}

/// The number of the segments, and for each the number of its live texts and of their tokens.
fn group_lines(
    alloc: Global,
    segments: &[Segment],
    live: &[List<u32>],
) -> Result<List<u8>, NoMemory>
    requires { AllZip AreLive segments.now live.now }
    ensures { IfOk result (λ lines. lines ≡ flat_map closed (lines_listed segments.now live.now)) }
{
    let mut lines = count_line(alloc, "=", segments.len() as u128)?;
    for i in 0..segments.len() {
        let line = group_line(alloc, &segments[i], live[i].as_slice())?;
        lines.extend(line.as_slice())?;
    }
    Ok(lines)
}

/// The number of these texts of a segment, and of their tokens.
fn group_line(alloc: Global, segment: &Segment, numbers: &[u32]) -> Result<List<u8>, NoMemory>
    requires { All (λ number. number < length segment.now.texts) numbers.now }
    ensures { IfOk result (λ line. line ≡ closed (line_listed segment.now numbers.now)) }
{
    let tokens = live_tokens(segment, numbers);
    Ok(List::from_vec(format!(in alloc; "{} {tokens}\n", numbers.len())?.into_bytes()))
}

/// How many tokens these texts of a segment have.
fn live_tokens(segment: &Segment, numbers: &[u32]) -> u128
    requires { All (λ number. number < length segment.now.texts) numbers.now }
    ensures { result ≡ tokens_listed segment.now numbers.now }
{
    let mut tokens = 0;
    for number in numbers {
        let (begin, end) = segment.text_bounds(*number);
        tokens += (end - begin) as u128;
    }
    tokens
}

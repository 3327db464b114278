//! A cache of the answers to questions.
ghost use Rattle.std.specs.Prelude.{◌≡◌, ◌<◌, IfOk, OnOk, IfSome, length, slice_index_or};
ghost use Rattle.cg_bound_routes.specs.Question.{IsAnswer, AreAnswers};
ghost use Rattle.cg_bound_routes.specs.declared.answers.Answer as answers_kept;

use crate::alike::shared;
use crate::question::{Question, is_same};
use crate::units::work_out;
use cg_arch::Arch;
use std::alloc::{AllocError, Global};

/// The answer to a question: `None` if there is no way.
#[derive(Clone, Copy, Drop)]
pub(crate) struct Answer {
    pub question: Question,
    pub hops: Option<u32>,
}

/// Finds the index of the answer to `question` in `answers`.
fn find(answers: &[Answer], question: Question) -> Option<usize>
    ensures { IfSome result (λ place. (place < length answers.now) × ((a : answers_kept.Answer) → (slice_index_or answers.now place a).question ≡ question)) }
{
    for place in 0..answers.len() {
        if is_same(answers[place].question, question) {
            return Some(place);
        }
    }
    None
}

/// Answers `question` from the cache, or computes the answer and caches it.
fn ask(
    alloc: Global,
    arch: &Arch,
    answers: &mut Vec<Answer>,
    question: Question,
) -> Result<Option<u32>, AllocError>
    requires { AreAnswers arch.now answers.old.items }
    ensures answer { IfOk result (IsAnswer arch.now question) }
    ensures kept { OnOk result (AreAnswers arch.now answers.new.items) }
{
    if let Some(place) = find(answers, question) {
        return Ok(answers[place].hops);
    }
    let hops = work_out(alloc, arch, question)?;
    answers.push(Answer { question, hops })?;
    Ok(hops)
}

/// Answers `question`, computing it once for all operations that the same units offer.
pub(crate) fn ask_shared(
    alloc: Global,
    arch: &Arch,
    answers: &mut Vec<Answer>,
    question: Question,
) -> Result<Option<u32>, AllocError>
    requires { AreAnswers arch.now answers.old.items }
    ensures answer { IfOk result (IsAnswer arch.now question) }
    ensures kept { OnOk result (AreAnswers arch.now answers.new.items) }
{
    ask(alloc, arch, answers, shared(arch, question))
}

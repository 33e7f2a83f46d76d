//! Room for an answer, made before what it is the answer to.

ghost use Rattle.std.specs.Prelude.{◌≡◌, ◌∷◌, ◌<◌, [], vec_capacity};

use crate::answer::Answer;
use std::alloc::{AllocError, Global};

/// Room for one answer. What is done once there is room can be answered, however little memory is left.
#[derive(Drop)]
pub struct RoomForAnswer {
    answers: Vec<Answer>,
    ghost empty: { (answers.items ≡ []) × (0 < vec_capacity answers) },
}

impl RoomForAnswer {
    /// Takes the memory.
    pub fn make(alloc: Global) -> Result<RoomForAnswer, AllocError> {
        let answers = Vec::with_capacity(alloc, 1)?;
        Ok(RoomForAnswer { answers })
    }

    /// The answer, as a list.
    pub fn filled(self, answer: Answer) -> Vec<Answer>
        ensures { result.items ≡ answer ∷ [] }
    {
        let mut answers = self.answers;
        answers.push_reserved(answer);
        answers
    }
}

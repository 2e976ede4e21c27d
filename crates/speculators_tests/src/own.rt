//! A kernel with its tokens.
ghost use Rattle.std.specs.Prelude.{◌≡◌, vec_len};

use crate::kernel::{Numbers, commit, shuts};
use crate::step::OwnStep;
use crate::wrong::{Wrong, holds};
use sk_guesses::Guess;
use sk_ids::GuessId;
use sk_speculator::{Refusal, Step};
use std::alloc::Global;
use std::process::Abort;

/// A kernel, the tokens of its guesses, and the step that is handed to it.
pub struct Own {
    pub kernel: Numbers,
    pub tokens: Vec<Guess>,
    pub step: OwnStep,
}

impl Own {
    pub fn new(alloc: Global, kernel: Numbers) -> Own {
        Own {
            kernel,
            tokens: Vec::new(alloc),
            step: Step::new(alloc),
        }
    }

    /// Draws a guess with the step, and keeps its token.
    pub fn draw(&mut self) -> Result<GuessId, Refusal> {
        if self.tokens.reserve(1).is_err() {
            return Err(Refusal::Memory);
        }
        let token = self.kernel.guess(&mut self.step)?;
        let id = token.id();
        self.tokens.push_reserved(token);
        Ok(id)
    }

    /// Spends the tokens by commits, the newest first.
    pub fn spend(&mut self, rt: &impl Abort)
        ensures { vec_len self.new.tokens ≡ 0 }
    {
        while !self.tokens.is_empty() {
            let last = self.tokens.len() - 1;
            let token = self.tokens.remove(last);
            commit(rt, &mut self.kernel, token);
        }
    }

    /// Spends the tokens, and ends.
    pub fn end(self, rt: &impl Abort) -> Result<(), Wrong> {
        let mut own = self;
        own.spend(rt);
        let Own {
            kernel,
            tokens,
            step: _,
        } = own;
        tokens.destroy_empty();
        holds(shuts(kernel), Wrong::Status)
    }
}

//! Scripts that are shared.
ghost use Rattle.std.specs.Prelude.{◌≡◌, ◌↔◌, IsTrue, IfOk};
ghost use Rattle.std.specs.Arc.{arc_value};
ghost use Rattle.sk_script.specs.Same.{same_script};

use crate::Script;
use std::alloc::{AllocError, Global};
use std::marker::Model;
use std::sync::Arc;

/// A script that others may hold too, which contracts see as its instructions.
#[derive(Drop)]
pub(crate) struct SharedScript {
    script: Arc<Script>,
}

impl Model for SharedScript {
    ghost use Rattle.std.specs.Prelude.{List};
    ghost use Rattle.std.specs.Arc.{arc_value};
    ghost use Rattle.sk_script.specs.declared.instruction.Instruction.{Instruction};

    ghost Value = { List Instruction };

    ghost view = { λ s. arc_value s.script };
}

impl PartialEq for SharedScript {
    ghost use Rattle.std.specs.Cmp.{decided, partial_equiv_from_equiv};
    ghost use Rattle.sk_script.specs.Same.{same_script};
    ghost use Rattle.sk_script.specs.SameLemma.{exact_script};

    ghost eq = { same_script };

    ghost laws = { partial_equiv_from_equiv (decided same_script exact_script) };

    /// True exactly for the same instructions.
    fn eq(&self, other: &SharedScript) -> bool
        ensures computed { result ≡ same_script self.now other.now }
        ensures exact { IsTrue result ↔ (self.now ≡ other.now) }
    {
        *self.script == *other.script
    }
}

impl Eq for SharedScript {
    ghost use Rattle.std.specs.Cmp.{decided};
    ghost use Rattle.sk_script.specs.Same.{same_script};
    ghost use Rattle.sk_script.specs.SameLemma.{exact_script};

    ghost laws = { decided same_script exact_script };
}

impl SharedScript {
    /// Holds a script, which others may hold too from then on.
    pub(crate) fn new(alloc: Global, script: Script) -> Result<SharedScript, AllocError>
        ensures { IfOk result (λ shared. shared ≡ script) }
    {
        Ok(SharedScript {
            script: Arc::new(alloc, script)?,
        })
    }

    pub(crate) fn script(&self) -> &Script
        ensures { result.now ≡ self.now }
    {
        &self.script
    }

    /// The script for another to hold. No instruction is copied.
    pub(crate) fn share(&self) -> Result<Arc<Script>, AllocError>
        ensures { IfOk result (λ shared. arc_value shared ≡ self.now) }
    {
        Ok(Arc::try_clone(&self.script)?)
    }
}

impl Clone for SharedScript {
    ghost is_clone = { λ copy shared. copy ≡ shared };

    fn clone(&self) -> Result<SharedScript, AllocError> {
        let script = self.share()?;
        Ok(SharedScript { script })
    }
}

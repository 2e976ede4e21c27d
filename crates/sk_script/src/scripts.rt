//! Scripts by name.
ghost use Rattle.std.specs.Prelude.{◌≡◌, ◌↔◌, IsTrue, IfOk, OnOk, OnErr, None};
ghost use Rattle.sk_script.specs.Base.{option_copied, arc_value};
ghost use Rattle.std.specs.FinMap as map;
ghost use Rattle.sk_script.specs.Scripts.{script_at};

use crate::Script;
use crate::shared_script::SharedScript;
use sk_ids::Name;
use sk_map::Map;
use std::alloc::{AllocError, Global};
use std::marker::Model;
use std::sync::Arc;

/// Scripts by name, which contracts see as a map.
#[derive(Drop)]
pub struct Scripts {
    scripts: Map<Name, SharedScript>,
}

impl Model for Scripts {
    ghost use Rattle.sk_ids.specs.Name.{name_order};
    ghost use Rattle.sk_map.specs.Seen.{seen};
    ghost use Rattle.sk_script.specs.Scripts.{ScriptMap, script_map_code};

    ghost Value = { ScriptMap };

    ghost coded = { script_map_code };

    ghost view = { λ a. seen name_order a.scripts };
}

impl PartialEq for Scripts {
    ghost use Rattle.std.specs.Cmp.{decided, partial_equiv_from_equiv};
    ghost use Rattle.sk_script.specs.Same.{same_scripts};
    ghost use Rattle.sk_script.specs.SameLemma.{exact_scripts};

    ghost eq = { same_scripts };

    ghost laws = { partial_equiv_from_equiv (decided same_scripts exact_scripts) };

    /// True exactly for the same scripts under the same names.
    fn eq(&self, other: &Scripts) -> bool
        ensures computed { result ≡ same_scripts self.now other.now }
        ensures exact { IsTrue result ↔ (self.now ≡ other.now) }
    {
        self.scripts == other.scripts
    }
}

impl Eq for Scripts {
    ghost use Rattle.std.specs.Cmp.{decided};
    ghost use Rattle.sk_script.specs.Same.{same_scripts};
    ghost use Rattle.sk_script.specs.SameLemma.{exact_scripts};

    ghost laws = { decided same_scripts exact_scripts };
}

impl Scripts {
    /// No script.
    pub fn new(alloc: Global) -> Scripts
        ensures { result ≡ map.empty }
    {
        Scripts {
            scripts: Map::new(alloc),
        }
    }

    /// The script of this name. Each step looks one up, and mostly there are few.
    #[inline(always)]
    pub fn get(&self, name: &Name) -> Option<&Script>
        ensures { option_copied result ≡ map.get self.now name.now }
    {
        match self.scripts.get_first(name) {
            Some(shared) => Some(shared.script()),
            None => None,
        }
    }

    /// The script of this name, shared; an empty one where there is none. Refused only for want of memory.
    pub fn share(&self, name: &Name) -> Result<Arc<Script>, AllocError>
        ensures { IfOk result (λ shared. arc_value shared ≡ script_at self.now name.now) }
    {
        match self.scripts.get(name) {
            Some(shared) => shared.share(),
            None => {
                let alloc = self.scripts.alloc();
                Ok(Arc::new(alloc, Script::empty(alloc))?)
            }
        }
    }

    /// Gives a script this name, which no other may have yet.
    pub fn insert(&mut self, name: Name, script: Script) -> Result<(), AllocError>
        requires { map.get self.old name ≡ None }
        ensures ok { OnOk result (self.new ≡ map.insert self.old name script) }
        ensures err { OnErr result (self.new ≡ self.old) }
    {
        let shared = SharedScript::new(self.scripts.alloc(), script)?;
        self.scripts.put(name, shared)
    }

    /// A copy of the scripts, which share what they hold with these.
    pub fn copy(&self) -> Result<Scripts, AllocError>
        ensures { IfOk result (λ copy. copy ≡ self.now) }
    {
        let scripts = self.scripts.clone()?;
        Ok(Scripts { scripts })
    }
}

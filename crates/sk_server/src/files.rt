//! Files by name.
ghost use Rattle.std.specs.Prelude.{◌≡◌, ◌<◌, IfOk, OnOk, OnErr, None, true};
ghost use Rattle.std.specs.Option.{option_copied};
ghost use Rattle.std.specs.List.Sorted.{IsStrictlySortedBy};
ghost use Rattle.std.specs.FinMap as map;
ghost use Rattle.sk_ids.specs.Name.{name_order};
ghost use Rattle.sk_server.specs.Files.{file_of, is_fitting, written};
ghost use Rattle.sk_server.specs.Server.{judged, files_after, is_new_file};
ghost use Rattle.sk_server.specs.Lent.{ask_in};
ghost use Rattle.sk_server.specs.Verdict.{said};
ghost use Rattle.sk_server.specs.declared.reply.Answer.TheVariants.{Yes};

use crate::AskRef;
use crate::verdict::Verdict;
use sk_ids::{Name, Text};
use sk_map::Map;
use sk_objects::Content;
use sk_objects::content::LAST_VERSION;
use std::alloc::{AllocError, Global};
use std::marker::Model;

/// The files that were stored, which contracts see as a map.
#[derive(Drop)]
pub(crate) struct Files {
    contents: Map<Name, Content>,
}

impl Model for Files {
    ghost use Rattle.sk_ids.specs.Name.{name_order};
    ghost use Rattle.sk_map.specs.Seen.{seen};
    ghost use Rattle.sk_server.specs.Files.{FileMap, file_map_code};

    ghost Value = { FileMap };

    ghost coded = { file_map_code };

    ghost view = { λ a. seen name_order a.contents };
}

impl Files {
    /// No file.
    pub(crate) fn new(alloc: Global) -> Files
        ensures { result ≡ map.empty }
    {
        Files {
            contents: Map::new(alloc),
        }
    }

    /// The file of a name, if it was stored.
    pub(crate) fn get(&self, name: &Name) -> Option<&Content>
        ensures { option_copied result ≡ map.get self.now name.now }
    {
        self.contents.get(name)
    }

    /// The content of a file: version 0 and no bytes where it was never stored.
    pub(crate) fn content(&self, name: &Name) -> Content
        ensures { result ≡ file_of self.now name.now }
    {
        match self.get(name) {
            Some(content) => *content,
            None => Content::new(0, Text::empty()).unwrap(),
        }
    }

    /// The version of a file, 0 where it was never stored.
    pub(crate) fn version(&self, name: &Name) -> u64
        ensures { result ≡ (file_of self.now name.now).version }
    {
        match self.get(name) {
            Some(content) => content.version(),
            None => 0,
        }
    }

    /// Whether a write that expects this version fits.
    pub(crate) fn is_fitting(&self, name: &Name, expected: u64) -> bool
        ensures { result ≡ is_fitting self.now name.now expected }
    {
        self.version(name) == expected && expected < LAST_VERSION
    }

    /// The names by rising bytes.
    pub(crate) fn names(&self) -> Result<Vec<Name>, AllocError>
        ensures keys { IfOk result (λ all. all.items ≡ map.keys self.now) }
        ensures rising { IfOk result (λ all. IsStrictlySortedBy name_order all.items) }
    {
        self.contents.keys().copied().collect(self.contents.alloc())
    }

    /// Sets a file. Only a new one can want memory; then nothing has changed.
    pub(crate) fn put(&mut self, name: Name, content: Content) -> Result<(), AllocError>
        ensures ok { OnOk result (self.new ≡ map.insert self.old name content) }
        ensures err { OnErr result (self.new ≡ self.old) }
        ensures absent { OnErr result (map.get self.old name ≡ None) }
    {
        self.contents.put(name, content)
    }

    /// Writes the version after this one. Only a new file can want memory; then nothing has changed.
    pub(crate) fn write(&mut self, name: Name, expected: u64, bytes: Text) -> Result<(), AllocError>
        requires { expected < LAST_VERSION }
        ensures ok { OnOk result (self.new ≡ written self.old name expected bytes) }
        ensures err { OnErr result (self.new ≡ self.old) }
        ensures absent { OnErr result (map.get self.old name ≡ None) }
    {
        self.put(name, Content::new(expected + 1, bytes).unwrap())
    }

    /// Does what an answer means: a store that is accepted is a write. Only a new file can want
    /// memory; then nothing has changed.
    pub(crate) fn take(&mut self, ask: &AskRef<'_>, verdict: Verdict) -> Result<(), AllocError>
        requires { said self.old (ask_in ask.now) verdict ≡ Yes
            → judged self.old (ask_in ask.now) ≡ Yes }
        ensures ok { OnOk result
            (self.new ≡ files_after self.old (ask_in ask.now)
            (said self.old (ask_in ask.now) verdict)) }
        ensures err { OnErr result (self.new ≡ self.old) }
        ensures added { OnErr result
            ((said self.old (ask_in ask.now) verdict ≡ Yes)
            × (is_new_file self.old (ask_in ask.now) ≡ true)) }
    {
        match (ask, verdict) {
            (AskRef::Store(name, expected, bytes), Verdict::Yes) => {
                self.write(**name, *expected, **bytes)
            }
            _ => Ok(()),
        }
    }
}

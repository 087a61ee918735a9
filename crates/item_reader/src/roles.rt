//! What a structure of a class is by the dictionary: its kind, and whether it is a root of its frame. Both are
//! kept by class, so that neither is looked for by name at each structure.

ghost use Rattle.std.specs.Prelude.{◌≡◌, ◌≤◌, [], Err, IfErr, IfOk, OnErr, OnOk, IsOkUnless};
ghost use Rattle.std.specs.Option.{option_copied};
ghost use Rattle.dictionary.specs.Same.{AreRead};
ghost use Rattle.dictionary.specs.Dictionary.{entry_of, step, IsDictionary};
ghost use Rattle.file_grammar.specs.Kind.{kind_of};
ghost use Rattle.item_reader.specs.Roles.{role_of, root_of, root_named};

use dictionary::{AddFault, Dictionary, Entry};
use file_grammar::{Kind, kind_of};
use link_graph::Root;
use std::alloc::Global;
use std::marker::Model;

/// What a structure of a class is to its file, and the root that it is as a record of a frame.
#[derive(Clone, Copy)]
pub struct Role {
    pub kind: Kind,
    pub root: Root,
}

/// The role of a class that is not held.
const NO_ROLE: Role = Role {
    kind: Kind::Other,
    root: Root::No,
};

/// A dictionary with the role of each class. Contracts see the dictionary.
#[derive(Drop)]
pub struct Classes {
    dictionary: Dictionary,
    roles: [Role; 256],
}

impl Model for Classes {
    ghost use Rattle.std.specs.Prelude.{List};
    ghost use Rattle.dictionary.specs.declared.entries.Entry.{Entry};
    ghost use Rattle.item_reader.specs.Roles.{AreRoles};

    ghost Value = { List Entry };

    ghost view = { λ c. c.dictionary };

    ghost invariant = { λ c. AreRoles c.dictionary c.roles };
}

impl Classes {
    /// A dictionary that holds no entry. It takes no memory yet.
    pub fn new(alloc: Global) -> Classes
        ensures { result ≡ [] }
    {
        let mut roles = [NO_ROLE; 256];
        roles[1] = Role {
            kind: Kind::FrSH,
            root: Root::No,
        };
        roles[2] = Role {
            kind: Kind::FrSE,
            root: Root::No,
        };
        Classes {
            dictionary: Dictionary::new(alloc),
            roles,
        }
    }

    /// The dictionary alone.
    pub fn dictionary(&self) -> &Dictionary
        ensures { result.now ≡ self.now }
    {
        &self.dictionary
    }

    /// The entry held of a class.
    pub fn get(&self, class: u8) -> Option<&Entry>
        ensures entry { option_copied result ≡ entry_of self.now class }
        ensures sound { IsDictionary self.now }
    {
        self.dictionary.get(class)
    }

    /// What a structure of a class is to its file.
    pub fn kind(&self, class: u8) -> Kind
        ensures { result ≡ kind_of self.now class }
    {
        self.role(class).kind
    }

    /// The root that a record of a class is.
    pub fn root(&self, class: u8) -> Root
        ensures { result ≡ root_of self.now class }
    {
        self.role(class).root
    }

    fn role(&self, class: u8) -> Role
        ensures { result ≡ role_of self.now class }
    {
        self.roles[class as usize]
    }

    /// Adds an entry, as the dictionary does.
    pub fn add(&mut self, entry: Entry) -> Result<(), AddFault>
        requires { AreRead entry.elements }
        ensures refused { IfErr (step self.old entry) (λ fault. result ≡ Err fault) }
        ensures accepted { IfOk (step self.old entry) (λ next. OnOk result (self.new ≡ next)) }
        ensures only_memory { OnOk (step self.old entry) (IsOkUnless result AddFault.NoMemory) }
        ensures err { OnErr result (self.new ≡ self.old) }
    {
        let class = entry.class;
        self.dictionary.add(entry)?;
        let role = role_of(&self.dictionary, class as u8);
        self.roles[class as usize] = role;
        Ok(())
    }
}

/// The role of a class.
fn role_of(dictionary: &Dictionary, class: u8) -> Role
    ensures { result ≡ role_of dictionary.now class }
{
    let root = match dictionary.get(class) {
        Some(entry) => root_named(entry.name.bytes()),
        None => Root::No,
    };
    Role {
        kind: kind_of(dictionary, class),
        root,
    }
}

fn root_named(name: &[u8]) -> Root
    ensures { result ≡ root_named name.now }
{
    if name == b"FrameH".as_slice() {
        Root::Head
    } else if name == b"FrStatData".as_slice() {
        Root::Stat
    } else {
        Root::No
    }
}

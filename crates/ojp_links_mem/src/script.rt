//! What is said beforehand of asks by their numbers.

ghost use Rattle.std.specs.Prelude.{◌≡◌, ℕ, IfOk, OnOk};
ghost use Rattle.ojp_links_mem.specs.Memory.{said_in};
ghost use Rattle.ojp_links_mem.specs.Scripts.{said_more, said_of};

use ojp_values::NoMemory;
use std::alloc::Global;
use std::collections::BTreeMap;

/// What a script says of an ask.
#[derive(Debug, Drop)]
pub enum What {
    /// The ask fails.
    FailAsk,
    /// Each look at it fails.
    FailMore,
    /// Its whole reply is these bytes.
    Reply(Vec<u8>),
}

/// What is said of the ask with this number, counted from 1.
#[derive(Debug, Drop)]
pub struct Script {
    pub ask: u64,
    pub what: What,
}

/// Adds an entry, unless there is one for its ask.
fn add_entry(said: &mut BTreeMap<u64, What>, entry: Script) -> Result<(), NoMemory>
    ensures { OnOk result ((number : ℕ) → said_in said.new.entries number ≡ said_more (said_in said.old.entries number) entry number) }
{
    if said.contains_key(&entry.ask) {
        return Ok(());
    }
    match said.insert(entry.ask, entry.what) {
        Ok(_) => Ok(()),
        Err(_) => Err(NoMemory),
    }
}

/// What the script says, by the numbers of the asks; of several entries for one ask the first holds.
pub(crate) fn said_by(alloc: Global, script: Vec<Script>) -> Result<BTreeMap<u64, What>, NoMemory>
    ensures { IfOk result (λ said. (number : ℕ) → said_in said.entries number ≡ said_of script.items number) }
{
    let mut said = BTreeMap::new(alloc);
    'entries: for entry in script {
        add_entry(&mut said, entry)?;
    }
    Ok(said)
}

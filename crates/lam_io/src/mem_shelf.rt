// A shelf in memory, whose fetches fail where a plan says.
ghost use Rattle.std.specs.Prelude.{◌≡◌, ◌^◌, ◌<◌, ◌≤◌, true, false, Some, IfOk, OnOk, OnErr, is_err};
ghost use Rattle.std.specs.{Option.option_copied, FinMap.get};
ghost use Rattle.lam_io.specs.Io.{Asks, IsFetched, IsFileStart, Rose};

use crate::fail_plan::FailPlan;
use crate::shelf::{Fetch, Shelf};
use std::alloc::{AllocError, Global};

#[derive(Drop)]
struct StoredFile {
    name: String,
    content: Vec<u8>,
}

/// A shelf in memory. A fetch is a fault exactly where the plan names its number or no file has
/// its name. Fetches are counted from 0; one that answers want of memory is not counted and
/// leaves the shelf as it was.
#[derive(Drop)]
pub struct MemShelf {
    // The newest first: a name that stands twice has the first file.
    files: Vec<StoredFile>,
    asked: Vec<String>,
    plan: FailPlan,
    faults: u64,
}

impl MemShelf {
    ghost use Rattle.lam_io.specs.Fetch.{OnFault};
    ghost use Rattle.lam_io.specs.ShelfInMemory.{shelving, empty_shelving, with_file, fetch_fails};

    /// A shelf without files. Takes no memory.
    pub fn new(alloc: Global, plan: FailPlan) -> MemShelf
        ensures { shelving result ≡ empty_shelving plan }
    {
        MemShelf {
            files: Vec::new(alloc),
            asked: Vec::new(alloc),
            plan,
            faults: 0,
        }
    }

    /// Sets the file of that name. After a refusal the shelf is as before.
    pub fn add(&mut self, name: &str, bytes: &[u8]) -> Result<(), AllocError>
        ensures ok { OnOk result (shelving self.new ≡ with_file name.now bytes.now (shelving self.old)) }
        ensures err { OnErr result (shelving self.new ≡ shelving self.old) }
    {
        let alloc = *self.files.allocator();
        let file = StoredFile {
            name: String::from_str(alloc, name)?,
            content: Vec::from_slice(alloc, bytes)?,
        };
        self.files.insert(0, file)?;
        Ok(())
    }

    // The bytes of the file of that name.
    fn find(&self, name: &str) -> Option<&[u8]>
        ensures { option_copied result ≡ get (shelving self.now).telling.files name.now }
    {
        for file in &self.files {
            if name == file.name.as_str() {
                return Some(file.content.as_slice());
            }
        }
        None
    }

    // What the next fetch answers, before the shelf takes note of it.
    fn read(&self, alloc: Global, name: &str, limit: u64) -> Result<Vec<u8>, Fetch>
        requires { limit < 2 ^ 32 }
        ensures start { IfOk result
            (λ v. IsFileStart (shelving self.now).telling.files name.now limit v.items) }
        ensures ok { OnOk result (fetch_fails (shelving self.now) name.now ≡ false) }
        ensures fault { OnFault result (fetch_fails (shelving self.now) name.now ≡ true) }
    {
        if self.plan.is_planned(self.asked.len() as u64) {
            return Err(Fetch::Fault);
        }
        match self.find(name) {
            Some(bytes) => {
                let most = bytes.len().min(limit as usize + 1);
                let start = Vec::from_slice(alloc, &bytes[..most])?;
                Ok(start)
            }
            None => Err(Fetch::Fault),
        }
    }
}

impl Shelf for MemShelf {
    ghost use Rattle.lam_io.specs.Fetch.{OnFault, OnOutOfMemory, UnlessOutOfMemory};
    ghost use Rattle.lam_io.specs.ShelfInMemory.{shelving, fetch_fails, after_fetch};

    ghost told = { λ shelf. Some (shelving shelf).telling };

    ghost faults = { λ shelf. (shelving shelf).faults };

    fn fetch(&mut self, alloc: Global, name: &str, limit: u64) -> Result<Vec<u8>, Fetch>
        requires { limit < 2 ^ 32 }
        ensures found { IfOk result
            (λ v. IsFetched (Some (shelving self.old).telling) name.now limit v.items) }
        ensures asked { UnlessOutOfMemory result
            (Asks (Some (shelving self.old).telling) (Some (shelving self.new).telling) name.now) }
        ensures unasked { OnOutOfMemory result
            (Some (shelving self.new).telling ≡ Some (shelving self.old).telling) }
        ensures fault { OnFault result
            (Rose (shelving self.old).faults (shelving self.new).faults) }
        ensures counts { (shelving self.old).faults ≤ (shelving self.new).faults }

        // A fault comes exactly where it is planned or no such file is there.
        ensures answer { UnlessOutOfMemory result
            (is_err result ≡ fetch_fails (shelving self.old) name.now) }
        ensures after { UnlessOutOfMemory result
            (shelving self.new ≡ after_fetch (shelving self.old) name.now) }
        ensures out_of_memory { OnOutOfMemory result (shelving self.new ≡ shelving self.old) }
    {
        let asked = String::from_str(alloc, name)?;
        match self.read(alloc, name, limit) {
            Ok(start) => {
                self.asked.push(asked)?;
                Ok(start)
            }
            Err(Fetch::Fault) => {
                self.asked.push(asked)?;
                self.faults = self.faults.saturating_add(1);
                Err(Fetch::Fault)
            }
            Err(Fetch::OutOfMemory) => Err(Fetch::OutOfMemory),
        }
    }
}

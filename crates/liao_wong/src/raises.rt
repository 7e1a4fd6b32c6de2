ghost use Rattle.std.specs.Prelude.{◌≡◌, ℕ, ◌^◌, ◌<◌, ◌≤◌, ◌<ℤ◌, pos, neg_ℤ, [], ◌∷◌, length, unwrap_or, IfOk, OnOk};
ghost use Rattle.std.specs.Prelude.{OnErr, slice_index_or};
ghost use Rattle.round_log.specs.{Looks.{label, latest, comes_back}, Logs.{HoldsRaises, raises_in}};
ghost use Rattle.liao_wong.specs.{Held.is_below, Sweeping.IsSwept};

use crate::sweeping::{keep_entries, new_numbers, reached, renumbered};
use lam_list::Seq;
use round_log::{Entry, Log};
use std::alloc::{AllocError, Global};
use std::marker::Model;

// The working log of the rounds: entry 0 stands for the origin, each later one for a raise, `last` has each variable's
// latest entry, or 0, and `values` its label, or the least number where it has none. It only grows, but where it is
// swept.
#[derive(Drop)]
pub struct Raises {
    entries: Vec<Entry>,
    last: Vec<u64>,
    values: Vec<i64>,
}

impl Model for Raises {
    ghost use Rattle.std.specs.Prelude.{length};
    ghost use Rattle.liao_wong.specs.Held.{Held, AreLogArrays};
    ghost use Rattle.round_log.specs.Logs.{raises_of};

    ghost Value = { Held };

    ghost view = { λ a. record { vars = length a.last.items; raises = raises_of a.entries.items } };

    ghost invariant = { λ a. AreLogArrays a.entries.items a.last.items a.values.items (raises_of a.entries.items) };
}

impl Raises {
    // No raise yet: the origin has the label 0, no other variable has one.
    pub fn new(alloc: Global, vars: u32) -> Result<Raises, AllocError>
        ensures { IfOk result (λ a. a ≡ record { vars = vars; raises = [] }) }
    {
        let origin = Entry {
            var: 0,
            value: 0,
            edge: 0,
            prev: 0,
        };
        let mut entries = Vec::new(alloc);
        entries.push(origin)?;
        let last = vec![in alloc; 0u64; vars as usize]?;
        let mut values = vec![in alloc; i64::MIN; vars as usize]?;
        if vars > 0 {
            values[0] = 0;
        }
        Ok(Raises {
            entries,
            last,
            values,
        })
    }

    // How many raises there are.
    pub fn len(&self) -> usize
        ensures { result ≡ length self.now.raises }
    {
        self.entries.len() - 1
    }

    // The number of a variable's latest raise, or 0.
    pub fn latest(&self, v: u32) -> u64
        requires { v < self.now.vars }
        ensures value { result ≡ latest self.now.raises v }
        ensures in_log { result ≤ length self.now.raises }
    {
        self.last[v as usize]
    }

    // The label of a variable, if it has one.
    pub fn label(&self, v: u32) -> Option<i64>
        requires { v < self.now.vars }
        ensures { result ≡ label self.now.raises v }
    {
        let n = self.last[v as usize];
        if n == 0 && v != 0 {
            return None;
        }
        Some(self.values[v as usize])
    }

    // Whether a variable has no label, or one below this value.
    pub fn is_below(&self, v: u32, value: i64) -> bool
        requires in_range { v < self.now.vars }
        requires more { neg_ℤ (pos (2 ^ 63)) <ℤ value }
        ensures { result ≡ is_below (label self.now.raises v) value }
    {
        self.values[v as usize] < value
    }

    // Appends a raise.
    pub fn push(&mut self, raise: Entry) -> Result<(), AllocError>
        requires in_range { raise.var < self.old.vars }
        requires older { raise.prev ≤ length self.old.raises }
        ensures ok { OnOk result (self.new ≡ record { vars = self.old.vars; raises = raise ∷ self.old.raises }) }
        ensures err { OnErr result (self.new ≡ self.old) }
    {
        let number = self.entries.len() as u64;
        self.entries.push(raise)?;
        self.last[raise.var as usize] = number;
        self.values[raise.var as usize] = raise.value;
        Ok(())
    }

    // Drops the raises that no chain from a latest one reaches; the others keep their order. The cost is that of a look
    // at each entry and each variable.
    pub fn sweep(&mut self, alloc: Global) -> Result<(), AllocError>
        ensures ok { OnOk result (IsSwept self.old self.new) }
        ensures err { OnErr result (self.new ≡ self.old) }
    {
        let keeps = reached(alloc, &self.entries, &self.last)?;
        let numbers = new_numbers(alloc, &keeps)?;
        self.last = renumbered(alloc, &self.last, &numbers)?;
        keep_entries(&mut self.entries, &keeps, &numbers);
        Ok(())
    }

    // Whether a raise's variable stands in the chain that the raise comes from.
    pub fn comes_back(&self, raise: &Entry) -> bool
        requires { raise.now.prev ≤ length self.now.raises }
        ensures { result ≡ comes_back self.now.raises raise.now }
    {
        let mut n = raise.prev as usize;
        while n > 0 {
            let entry = &self.entries[n];
            if entry.var == raise.var {
                return true;
            }
            n = entry.prev as usize;
        }
        false
    }

    // The labels of all variables, 0 where there is none.
    pub fn labels(&self, alloc: Global) -> Result<Vec<i64>, AllocError>
        requires { self.now.vars < 2 ^ 32 }
        ensures len { IfOk result (λ x. length x.items ≡ self.now.vars) }
        ensures labels { IfOk result (λ x. (v : ℕ) → v < self.now.vars
            → slice_index_or x.items v (pos 0) ≡ unwrap_or (label self.now.raises v) (pos 0)) }
    {
        let mut labels = Vec::new(alloc);
        for v in 0..self.last.len() as u32 {
            labels.push(self.label(v).unwrap_or(0))?;
        }
        Ok(labels)
    }

    // The log as it is handed out.
    pub fn into_log(self) -> Log
        ensures raises { raises_in result ≡ self.raises }
        ensures holds { HoldsRaises self.vars result self.raises }
    {
        let Raises { entries, last, .. } = self;
        Log {
            entries: Seq::from_vec(entries),
            last: Seq::from_vec(last),
        }
    }
}

//! The terminals that the node lines name.
ghost use Rattle.std.specs.Prelude.{◌≡◌, ℕ, ◌++◌, ◌||◌, ◌==◌, [], OnOk, OnErr, false, slice_index_or};
ghost use Rattle.flow_net.specs.Limits.{AreDistinct};
ghost use Rattle.flow_text.specs.Terminals.{is_marked, lacks_one, with_mark};

use std::alloc::{AllocError, Global};
use std::marker::Model;

/// The sources and the sinks, all different, in the order of their lines.
#[derive(Drop)]
pub(crate) struct Terminals {
    sources: Vec<u32>,
    sinks: Vec<u32>,
    /// Whether each node, up to the greatest terminal, is one.
    marks: Vec<bool>,
}

/// Marks a node, in a list with a mark for each node up to the greatest that was marked.
fn mark(marks: &mut Vec<bool>, node: u32) -> Result<(), AllocError>
    ensures { OnOk result ((q : ℕ) → slice_index_or marks.new.items q false
        ≡ slice_index_or marks.old.items q false || q == node) }
{
    let place = node as usize;
    if marks.len() <= place {
        marks.resize(place + 1, false)?;
    }
    marks[place] = true;
    Ok(())
}

impl Model for Terminals {
    ghost use Rattle.std.specs.Prelude.{◌≡◌, ◌++◌, ℕ, false, slice_index_or};
    ghost use Rattle.flow_net.specs.Limits.{AreDistinct};
    ghost use Rattle.flow_text.specs.Terminals.{Marks, is_marked};

    ghost Value = { Marks };

    ghost view = { λ t. record { sources = t.sources.items; sinks = t.sinks.items } };

    ghost invariant = { λ t. record {
      all : (q : ℕ) → slice_index_or t.marks.items q false
          ≡ is_marked (record { sources = t.sources.items; sinks = t.sinks.items }) q;
      distinct : AreDistinct (t.sources.items ++ t.sinks.items);
    } };
}

impl Terminals {
    /// No terminals. It takes no memory.
    pub(crate) fn new(alloc: Global) -> Terminals
        ensures { result ≡ record { sources = []; sinks = [] } }
    {
        Terminals {
            sources: Vec::new(alloc),
            sinks: Vec::new(alloc),
            marks: Vec::new(alloc),
        }
    }

    /// Whether a node is a source or a sink.
    pub(crate) fn contains(&self, node: u32) -> bool
        ensures { result ≡ is_marked self.now node }
    {
        let place = node as usize;
        place < self.marks.len() && self.marks[place]
    }

    /// Whether there is no source or no sink.
    pub(crate) fn lacks_one(&self) -> bool
        ensures { result ≡ lacks_one self.now }
    {
        self.sources.is_empty() || self.sinks.is_empty()
    }

    /// Adds a terminal. An error leaves no terminals.
    pub(crate) fn add(&mut self, node: u32, is_source: bool) -> Result<(), AllocError>
        requires { is_marked self.old node ≡ false }
        ensures ok { OnOk result (self.new ≡ with_mark self.old node is_source) }
        ensures err { OnErr result (self.new ≡ record { sources = []; sinks = [] }) }
    {
        if mark(&mut self.marks, node).is_ok() {
            if is_source {
                if self.sources.push(node).is_ok() {
                    return Ok(());
                }
            } else if self.sinks.push(node).is_ok() {
                return Ok(());
            }
        }
        self.sources.clear();
        self.sinks.clear();
        self.marks.clear();
        Err(AllocError)
    }

    /// The sources and the sinks.
    pub(crate) fn into_parts(self) -> (Vec<u32>, Vec<u32>)
        ensures sources { result.0.items ≡ self.sources }
        ensures sinks { result.1.items ≡ self.sinks }
        ensures distinct { AreDistinct (self.sources ++ self.sinks) }
    {
        let Terminals {
            sources,
            sinks,
            marks: _,
        } = self;
        (sources, sinks)
    }
}

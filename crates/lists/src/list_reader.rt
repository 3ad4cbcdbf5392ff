//! Collects what is read of lists.
ghost use Rattle.std.specs.Prelude.{◌≡◌, None, OnOk, Result, Some};
ghost use Rattle.lists.specs.Entries.{IsRange, ReadsText};
ghost use Rattle.lists.specs.Lists.{nothing_read, at_list, at_next_line, refusing, Takes};
ghost use Rattle.lists.specs.Lists.{TakesAllowed, TakesEntry};
ghost use Rattle.lists.specs.Documents.{passing, TakesString, TakesText};
ghost use Rattle.lists.specs.Added.{AddsNetwork, AddsRange, AddsEntry};
ghost use Rattle.lists.specs.Private.Taking.{IsGoodEntry};

use crate::entry::{Entry, EntryFault, read_text};
use crate::excerpt::Excerpt;
use crate::fault::LineFault;
use crate::forms::read_entry_by;
use crate::looks::looks_like_entry;
use crate::networks::Networks;
use crate::read::LINE_MAX;
use crate::refusals::{Refusal, Refusals};
use crate::rules::Rules;
use ipnetwork::{IpAddr, IpNetwork, Ipv4Network, Ipv6Network};
use std::alloc::{AllocError, Global};
use std::marker::Model;

/// Collects the networks that the lines of lists name, by family, and the lines that are refused.
///
/// It reads any number of lists, one after another (`read_list`). It keeps the networks in the
/// order in which they are read, and a range as its blocks. Once memory has run out for a network,
/// nothing more is read.
///
/// ```
/// let mut lists = ListReader::new(rt.alloc(), Rules::lenient(), Refusals::new());
/// read_list(&mut lists, 1, &mut lines::watched::Watched::new(b"10.0.0.0/9\n::1".as_slice()))?;
/// read_list(&mut lists, 2, &mut lines::watched::Watched::new(b"10.128.0.0/9".as_slice()))?;
/// let (v4, v6, _) = lists.into_networks();
/// assert_eq!(rt; v4.as_slice(), ["10.0.0.0/9".parse()?, "10.128.0.0/9".parse()?].as_slice());
/// assert_eq!(rt; v6.as_slice(), ["::1/128".parse()?].as_slice());
/// ```
#[derive(Debug, Drop)]
pub struct ListReader {
    alloc: Global,
    v4: Networks<Ipv4Network>,
    v6: Networks<Ipv6Network>,
    rules: Rules,
    refusals: Refusals,
    list: usize,
    line: u64,
    is_out_of_memory: bool,
}

// Contracts see what was read.
impl Model for ListReader {
    ghost use Rattle.lists.specs.Lists.{ReadLists};

    ghost Value = { ReadLists };

    ghost view = { λ r. record {
      rules = r.rules;
      v4 = r.v4;
      v6 = r.v6;
      refused = r.refusals;
      list = r.list;
      line = r.line;
      is_out_of_memory = r.is_out_of_memory;
    } };
}

impl ListReader {
    /// Creates a reader that has read no list yet, and refuses entries by these rules. `refusals`
    /// holds the lines that were refused before.
    ///
    /// ```
    /// let lists = ListReader::new(rt.alloc(), Rules::lenient(), Refusals::new());
    /// let (v4, v6, refusals) = lists.into_networks();
    /// assert!(rt; v4.is_empty() && v6.is_empty() && refusals.is_empty());
    /// ```
    pub fn new(alloc: Global, rules: Rules, refusals: Refusals) -> ListReader
        ensures { result ≡ nothing_read rules refusals }
    {
        ListReader {
            alloc,
            v4: Networks::new(alloc),
            v6: Networks::new(alloc),
            rules,
            refusals,
            list: 0,
            line: 0,
            is_out_of_memory: false,
        }
    }

    /// Begins a list, to which the caller gives this number.
    pub(crate) fn begin(&mut self, list: usize)
        ensures { self.new ≡ at_list self.old list }
    {
        self.list = list;
        self.line = 0;
    }

    /// Whether memory ran out for a network.
    ///
    /// ```
    /// let mut lists = ListReader::new(rt.alloc(), Rules::lenient(), Refusals::new());
    /// read_list(&mut lists, 1, &mut lines::watched::Watched::new(b"10.0.0.0/8".as_slice()))?;
    /// assert!(rt; !lists.is_out_of_memory());
    /// ```
    pub fn is_out_of_memory(&self) -> bool
        ensures { result ≡ self.now.is_out_of_memory }
    {
        self.is_out_of_memory
    }

    /// Returns the networks of each family, in the order in which they were read, and the refused
    /// lines.
    ///
    /// A range is returned as the fewest blocks that have its addresses.
    ///
    /// ```
    /// let mut lists = ListReader::new(rt.alloc(), Rules::lenient(), Refusals::new());
    /// let list = b"10.0.0.0/8\n192.0.2.7 - 192.0.2.8\n10.1.0.0/16".as_slice();
    /// read_list(&mut lists, 1, &mut lines::watched::Watched::new(list))?;
    /// let (v4, _, _) = lists.into_networks();
    /// assert_eq!(rt; v4.len(), 4);
    /// assert_eq!(rt; v4[1], "192.0.2.7/32".parse()?);
    /// ```
    pub fn into_networks(self) -> (Vec<Ipv4Network>, Vec<Ipv6Network>, Refusals)
        ensures v4 { result.0.items ≡ self.v4 }
        ensures v6 { result.1.items ≡ self.v6 }
        ensures refused { result.2 ≡ self.refused }
    {
        (self.v4.into_vec(), self.v6.into_vec(), self.refusals)
    }

    /// Whether the rules say that lists end with a line feed.
    pub(crate) fn wants_whole_lists(&self) -> bool
        ensures { result ≡ self.now.rules.is_whole }
    {
        self.rules.is_whole
    }

    /// Takes a line of at most 1,024 bytes, unless memory has run out.
    pub(crate) fn take_line(&mut self, line: &[u8])
        ensures { Takes self.old (Some line.now) self.new }
    {
        if self.is_out_of_memory() {
            return;
        }
        self.next_line();
        match read_entry_by(self.rules, line) {
            Ok(None) => {}
            Ok(Some(entry)) => self.take_allowed(entry, line),
            Err(fault) => self.refuse(LineFault::Entry(fault), Excerpt::of(line)),
        }
    }

    /// Refuses a line that is too long, unless memory has run out.
    pub(crate) fn refuse_long_line(&mut self)
        ensures { Takes self.old None self.new }
    {
        if self.is_out_of_memory() {
            return;
        }
        self.next_line();
        self.refuse(LineFault::Length, Excerpt::empty());
    }

    /// Takes a string of a document, unless memory has run out. A string that names no entry is
    /// refused if the reading is strict or it looks like an entry.
    pub(crate) fn take_string(&mut self, text: &[u8], is_strict: bool)
        ensures { TakesString is_strict self.old text.now self.new }
    {
        if self.is_out_of_memory() {
            return;
        }
        self.next_line();
        if text.len() > LINE_MAX {
            self.pass(LineFault::Length, text, is_strict);
        } else {
            self.take_text(text, is_strict);
        }
    }

    // Takes a string of at most 1,024 bytes.
    fn take_text(&mut self, text: &[u8], is_strict: bool)
        ensures { (reading : Result Entry EntryFault) × ReadsText text.now reading
            × TakesText is_strict self.old text.now reading self.new }
    {
        match read_text(text) {
            Ok(entry) => self.take_allowed(entry, text),
            Err(fault) => self.pass(LineFault::Entry(fault), text, is_strict),
        }
    }

    // Refuses a string if the reading is strict or it looks like an entry.
    fn pass(&mut self, fault: LineFault, text: &[u8], is_strict: bool)
        ensures { self.new ≡ passing is_strict self.old text.now fault }
    {
        if is_strict || looks_like_entry(text) {
            self.refuse(fault, Excerpt::of_string(text));
        }
    }

    // Moves on to the next line of the list.
    fn next_line(&mut self)
        ensures { self.new ≡ at_next_line self.old }
    {
        self.line = self.line.saturating_add(1);
    }

    // Notes that the current line, whose text begins so, is refused.
    fn refuse(&mut self, fault: LineFault, text: Excerpt)
        ensures { self.new ≡ refusing self.old fault }
    {
        let refusal = Refusal {
            list: self.list,
            line: self.line,
            fault,
        };
        self.refusals.add(self.alloc, refusal, text);
    }

    // Takes the entry of a text, unless it is refused for its host bits.
    fn take_allowed(&mut self, entry: Entry, text: &[u8])
        requires { IsGoodEntry entry }
        ensures { TakesAllowed self.old entry self.new }
    {
        if self.rules.refuses(&entry) {
            self.refuse(LineFault::Entry(EntryFault::HostBits), Excerpt::of(text));
        } else {
            self.take(entry);
        }
    }

    // Takes an entry, or notes that memory ran out for it.
    fn take(&mut self, entry: Entry)
        requires { IsGoodEntry entry }
        ensures { TakesEntry self.old entry self.new }
    {
        let pushed = push_entry(&mut self.v4, &mut self.v6, entry);
        self.is_out_of_memory = pushed.is_err();
    }
}

// Appends the network, or the blocks of the range, to the networks of its family.
fn push_entry(
    v4: &mut Networks<Ipv4Network>,
    v6: &mut Networks<Ipv6Network>,
    entry: Entry,
) -> Result<(), AllocError>
    requires { IsGoodEntry entry }
    ensures { OnOk result (AddsEntry v4.old v6.old entry v4.new v6.new) }
{
    match entry {
        Entry::Network(network) => push_network(v4, v6, network),
        Entry::Range { first, last } => push_range(v4, v6, first, last),
    }
}

// Appends a network to those of its family.
fn push_network(
    v4: &mut Networks<Ipv4Network>,
    v6: &mut Networks<Ipv6Network>,
    network: IpNetwork,
) -> Result<(), AllocError>
    ensures { OnOk result (AddsNetwork v4.old v6.old network v4.new v6.new) }
{
    match network {
        IpNetwork::V4(network) => v4.push(network),
        IpNetwork::V6(network) => v6.push(network),
    }
}

// Appends the blocks of a range to the networks of its family.
fn push_range(
    v4: &mut Networks<Ipv4Network>,
    v6: &mut Networks<Ipv6Network>,
    first: IpAddr,
    last: IpAddr,
) -> Result<(), AllocError>
    requires { IsRange first last }
    ensures { OnOk result (AddsRange v4.old v6.old first last v4.new v6.new) }
{
    match first {
        IpAddr::V4(first) => match last {
            IpAddr::V4(last) => v4.push_range(first, last),
            IpAddr::V6(_) => Ok(()),
        },
        IpAddr::V6(first) => match last {
            IpAddr::V4(_) => Ok(()),
            IpAddr::V6(last) => v6.push_range(first, last),
        },
    }
}

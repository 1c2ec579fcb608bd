// What is written behind a run: a profile, and which lines of the sources have run.
ghost use Rattle.std.specs.Prelude.{◌≡◌, ◌+◌, ◌-◌, ◌^◌, ◌<◌, ◌≤◌, ◌++◌, [], ℕ, List, codes, IfOk, OnOk, Some, None};
ghost use Rattle.std.specs.Option.{option_map};
ghost use Rattle.kc_profile.specs.Cover.{cover_text};
ghost use Rattle.kc_profile.specs.declared.spot.Spot as spots;
ghost use Rattle.kc_profile.specs.declared.statistics_text.Scope.TheVariants as scopes;
ghost use Rattle.kc_profile.specs.Statistics.{AreAllFew, with_life};
ghost use Rattle.kc_profile.specs.Tally.{IsTallyOf, total};
ghost use Rattle.kc_kit_files.specs.Outside.{kept};
ghost use Rattle.kc_kit_words.specs.Asked.{behind_in};
ghost use Rattle.kc_kit_running.specs.Counting.{IsCount};
ghost use Rattle.kc_kit_running.specs.Profiled.{counted_text, heading, write_of, writes_of};
ghost use Rattle.kc_kit_running.specs.Writing.{AreWritten};

use crate::output::{Output, write_output};
use crate::sources::Sources;
use kc_base::{Files, NoMemory, put_number};
use kc_debug_script::MapEntry;
use kc_kit_files::{Ended, Status};
use kc_kit_words::Behind;
use kc_machine::End;
use kc_profile::{Profile, Scope, Source, Statistics, put_sources, report};
use std::alloc::Global;

/// What is known of the sources of an image: the entries of its line map, its instructions by their lines, and its modules at their
/// places.
#[derive(Drop)]
pub struct Lines<'a> {
    pub entries: Vec<MapEntry>,
    pub sources: Vec<Source<'a>>,
    pub linked: Option<Sources<'a>>,
}

/// What was counted of one life, or of several.
#[derive(Drop)]
pub(crate) struct Account {
    pub(crate) profile: Profile,
    pub(crate) statistics: Statistics,
}

impl Account {
    /// Of a life with this number of which no state has passed.
    pub(crate) fn new(alloc: Global, life: u16) -> Result<Account, NoMemory>
        ensures { IfOk result (λ account. IsCount life [] [] account.profile account.statistics) }
    {
        Ok(Account {
            profile: Profile::new(alloc)?,
            statistics: Statistics::new(alloc, life)?,
        })
    }

    /// Adds what was counted of a later life.
    pub(crate) fn add(&mut self, later: &Account)
        requires room { total self.old.profile + total later.now.profile < 2 ^ 64 }
        requires few { AreAllFew (2 ^ 63 - 1) self.old.statistics }
        requires later { AreAllFew (2 ^ 63 - 1) later.now.statistics }
        ensures tally { (before others : List spots.Spot) → IsTallyOf before self.old.profile → IsTallyOf others later.now.profile → IsTallyOf (before ++ others) self.new.profile }
        ensures statistics { self.new.statistics ≡ with_life self.old.statistics later.now.statistics }
        ensures few { (n m : ℕ) → AreAllFew n self.old.statistics → AreAllFew m later.now.statistics → AreAllFew (n + m) self.new.statistics }
    {
        self.profile.add_all(&later.profile);
        self.statistics.add(&later.statistics);
    }
}

/// The texts that are written behind a run.
#[derive(Drop)]
pub(crate) struct Accounts {
    pub(crate) profile: Vec<u8>,
    pub(crate) cover: Vec<u8>,
}

/// How a run has ended that was counted, and what is written behind it.
#[derive(Drop)]
pub(crate) struct Watched {
    pub(crate) how: End,
    pub(crate) accounts: Accounts,
}

// Puts a heading: a word and a number.
fn put_heading(text: &mut Vec<u8>, word: &[u8], number: u16) -> Result<(), NoMemory>
    ensures { OnOk result (text.new.items ≡ text.old.items ++ heading word.now number) }
{
    text.extend_from_slice(word)?;
    put_number(text, u128::from(number))?;
    text.push(b'\n')?;
    Ok(())
}

impl Accounts {
    pub(crate) fn new(alloc: Global) -> Accounts
        ensures profile { result.profile.items ≡ [] }
        ensures cover { result.cover.items ≡ [] }
    {
        Accounts {
            profile: Vec::new(alloc),
            cover: Vec::new(alloc),
        }
    }

    // Puts what was counted behind the profile.
    fn put_profile(
        &mut self,
        alloc: Global,
        account: &Account,
        lines: &Lines<'_>,
        scope: Scope,
    ) -> Result<(), NoMemory>
        ensures profile { OnOk result (self.new.profile.items ≡ self.old.profile.items ++ counted_text scope lines.now.entries.items account.now.profile account.now.statistics) }
        ensures cover { self.new.cover ≡ self.old.cover }
    {
        let text = report(
            alloc,
            &account.profile,
            &account.statistics,
            &lines.entries,
            scope,
        )?;
        self.profile.extend_from_slice(&text)?;
        Ok(())
    }

    /// Adds what was counted of a run of one life.
    pub(crate) fn put_run(
        &mut self,
        alloc: Global,
        account: &Account,
        lines: &Lines<'_>,
    ) -> Result<(), NoMemory>
        ensures profile { OnOk result (self.new.profile.items ≡ self.old.profile.items ++ counted_text scopes.Life lines.now.entries.items account.now.profile account.now.statistics) }
        ensures cover { OnOk result (self.new.cover.items ≡ self.old.cover.items ++ cover_text None account.now.statistics lines.now.sources.items) }
    {
        self.put_profile(alloc, account, lines, Scope::Life)?;
        put_sources(&mut self.cover, &lines.sources, None, &account.statistics)
    }

    /// Adds what was counted of the life with a number, under its heading.
    pub(crate) fn put_life(
        &mut self,
        alloc: Global,
        life: u16,
        account: &Account,
        lines: &Lines<'_>,
    ) -> Result<(), NoMemory>
        ensures profile { OnOk result (self.new.profile.items ≡ self.old.profile.items ++ heading (codes "life ") life ++ counted_text scopes.Life lines.now.entries.items account.now.profile account.now.statistics) }
        ensures cover { OnOk result (self.new.cover.items ≡ self.old.cover.items ++ cover_text (Some life) account.now.statistics lines.now.sources.items) }
    {
        put_heading(&mut self.profile, b"life ", life)?;
        self.put_profile(alloc, account, lines, Scope::Life)?;
        put_sources(
            &mut self.cover,
            &lines.sources,
            Some(life),
            &account.statistics,
        )
    }

    /// Adds the sums of so many lives to the profile.
    pub(crate) fn put_sums(
        &mut self,
        alloc: Global,
        lives: u16,
        sums: &Account,
        lines: &Lines<'_>,
    ) -> Result<(), NoMemory>
        ensures profile { OnOk result (self.new.profile.items ≡ self.old.profile.items ++ heading (codes "lives ") lives ++ counted_text scopes.Lives lines.now.entries.items sums.now.profile sums.now.statistics) }
        ensures cover { self.new.cover ≡ self.old.cover }
    {
        put_heading(&mut self.profile, b"lives ", lives)?;
        self.put_profile(alloc, sums, lines, Scope::Lives)
    }

    /// Writes the files that are asked for.
    pub(crate) fn write<'a, F: Files>(
        self,
        alloc: Global,
        behind: Behind<'a>,
        files: &mut F,
    ) -> Ended<'a>
        ensures written { AreWritten (kept (F.held files.old) (F.write_faults files.old)) (writes_of (behind_in behind.entry) (record { profile = self.profile.items; cover = self.cover.items })) result (kept (F.held files.new) (F.write_faults files.new)) }
        ensures no_read { F.read_faults files.new ≡ F.read_faults files.old }
    {
        let Accounts { profile, cover } = self;
        let wrote = write_named(alloc, behind.profile, profile, files);
        match wrote.status {
            Status::Done => write_named(alloc, behind.cover, cover, files),
            _ => wrote,
        }
    }
}

// Makes a file hold a text, where one is named.
fn write_named<'a, F: Files>(
    alloc: Global,
    name: Option<&'a str>,
    bytes: Vec<u8>,
    files: &mut F,
) -> Ended<'a>
    ensures written { AreWritten (kept (F.held files.old) (F.write_faults files.old)) (write_of (option_map (λ n. n.now) name.entry) bytes.items) result (kept (F.held files.new) (F.write_faults files.new)) }
    ensures later { F.write_faults files.old ≤ F.write_faults files.new }
    ensures no_read { F.read_faults files.new ≡ F.read_faults files.old }
{
    match name {
        Some(name) => write_output(alloc, &Output { name, bytes }, files),
        None => Ended::by(Status::Done),
    }
}

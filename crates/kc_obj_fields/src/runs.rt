// Runs of bytes that were read, and where in the file each byte stands.
ghost use Rattle.std.specs.Prelude.{◌≡◌, ◌<◌, ◌≤◌, ◌+◌, ◌++◌, ◌∷◌, [], ◌^◌, length, OnOk, OnErr};
ghost use Rattle.kc_base.specs.Limits.{file_limit};
ghost use Rattle.std.specs.Option.{option_copied};
ghost use Rattle.std.specs.HashMap.{IsEmpty};
ghost use Rattle.kc_obj_fields.specs.Records.{place_of};
ghost use Rattle.kc_obj_fields.specs.Fields.{last_of};
ghost use Rattle.kc_obj_fields.specs.Places.{PutsRun, laid};

use kc_base::NoMemory;
use kc_obj_module::Content;
use std::alloc::Global;
use std::collections::HashMap;
use std::marker::Model;

// Where in the file a byte stands, by its piece and offset.
type Places = HashMap<(u16, u32), u32>;

// Puts where one byte stands, if it has no place yet.
fn put_place(places: &mut Places, piece: u16, offset: u32, start: u32) -> Result<(), NoMemory>
    ensures { OnOk result (PutsRun places.old places.new piece offset start 1) }
{
    let place = (piece, offset);
    if places.get(&place).is_none() {
        places.insert(place, start)?;
    }
    Ok(())
}

// Puts where the bytes of a run stand, of those that have no place yet.
fn put_places(
    places: &mut Places,
    piece: u16,
    offset: u32,
    start: u32,
    count: u32,
) -> Result<(), NoMemory>
    requires offset { offset + count < 2 ^ 32 }
    requires start { start + count < 2 ^ 32 }
    ensures { OnOk result (PutsRun places.old places.new piece offset start count) }
{
    let mut i = 0u32;
    while i < count {
        put_place(places, piece, offset + i, start + i)?;
        i += 1;
    }
    Ok(())
}

fn put_run(
    contents: &mut Vec<Content>,
    starts: &mut Vec<u32>,
    places: &mut Places,
    run: Content,
    start: u32,
) -> Result<(), NoMemory>
    requires start { start < 2 ^ 31 }
    requires run { length run.bytes ≤ file_limit }
    ensures places { OnOk result (PutsRun places.old places.new run.piece run.offset start (length run.bytes)) }
    ensures contents { OnOk result (contents.new.items ≡ contents.old.items ++ run ∷ []) }
    ensures starts { OnOk result (starts.new.items ≡ starts.old.items ++ start ∷ []) }
{
    let count = run.bytes.as_slice().len() as u32;
    put_places(places, run.piece, run.offset as u32, start, count)?;
    contents.push(run)?;
    starts.push(start)?;
    Ok(())
}

fn forget(contents: &mut Vec<Content>, starts: &mut Vec<u32>, places: &mut Places)
    ensures contents { contents.new.items ≡ [] }
    ensures starts { starts.new.items ≡ [] }
    ensures places { IsEmpty places.new }
{
    contents.clear();
    starts.clear();
    places.clear();
}

/// Runs that were read, in the order of their records, and where in the file the bytes of each begin.
#[derive(Drop)]
pub struct Runs {
    contents: Vec<Content>,
    starts: Vec<u32>,
    places: Places,
}

impl Model for Runs {
    ghost use Rattle.kc_obj_fields.specs.Places.{Laid, laid, IsTable};

    ghost Value = { Laid };

    ghost view = { λ r. laid r.contents.items r.starts.items };

    ghost invariant = { λ r. IsTable r.places r.contents.items r.starts.items };
}

impl Runs {
    /// No runs.
    #[tactic(auto, using(crate::proofs::PlaceLemmas::table_none, crate::proofs::PlaceLemmas::no_places))]
    pub fn new(alloc: Global) -> Runs
        ensures { result ≡ laid [] [] }
    {
        Runs {
            contents: Vec::new(alloc),
            starts: Vec::new(alloc),
            places: HashMap::new(alloc),
        }
    }

    /// Adds a run of which the bytes begin at `start` in the file. After an error nothing is left.
    pub fn push(&mut self, run: Content, start: u32) -> Result<(), NoMemory>
        requires start { start < 2 ^ 31 }
        requires run { length run.bytes ≤ file_limit }
        ensures ok { OnOk result (self.new ≡ laid (self.old.contents ++ run ∷ []) (self.old.starts ++ start ∷ [])) }
        ensures err { OnErr result (self.new ≡ laid [] []) }
    {
        match put_run(
            &mut self.contents,
            &mut self.starts,
            &mut self.places,
            run,
            start,
        ) {
            Ok(()) => Ok(()),
            Err(error) => {
                forget(&mut self.contents, &mut self.starts, &mut self.places);
                Err(error)
            }
        }
    }

    /// The run that was read last.
    pub fn last(&self) -> Option<&Content>
        ensures { option_copied result ≡ last_of self.now.contents }
    {
        self.contents.last()
    }

    /// Where in the file a byte stands, if it was read.
    pub fn place(&self, piece: u16, offset: u32) -> Option<u32>
        ensures { result ≡ place_of self.now.contents self.now.starts piece offset }
    {
        self.places.get(&(piece, offset)).copied()
    }

    /// The runs, handed over.
    pub fn into_contents(self) -> Vec<Content>
        ensures { result.items ≡ self.contents }
    {
        let Runs {
            contents,
            starts: _starts,
            places: _places,
        } = self;
        contents
    }
}

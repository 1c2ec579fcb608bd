// The instructions of sources at their places.
ghost use Rattle.std.specs.Prelude.{◌≡◌, ◌+◌, ◌-◌, ◌≤◌, ◌++◌, length, map, string_bytes, flat_map, IfOk, OnOk};
ghost use Rattle.kc_base.specs.Limits.{file_limit, image_start};
ghost use Rattle.kc_link_place.specs.BaseLists.{bases_in};
ghost use Rattle.kc_link.specs.Placed.{ArePlacedAt};
ghost use Rattle.kc_asm.specs.Assembled.{IsModule};
ghost use Rattle.kc_kit_files.specs.Reads.{AllShort};
ghost use Rattle.kc_kit_inputs.specs.Sources.{AreModules};
ghost use Rattle.kc_link_place.specs.Placing.{bases_from};
ghost use Rattle.kc_kit_answer.specs.Cover as spec;

use kc_asm_list::{Spot, instructions};
use kc_base::{IMAGE_START, Image, NoMemory};
use kc_code::{Decoded, decode};
use kc_lex::SourceFault;
use kc_link::Placement;
use kc_link_place::Bases;
use kc_obj_module::{Module, SegKind, Segment};
use kc_profile::{Instruction, Source, is_branch};
use std::alloc::Global;

/// How many pieces can be numbered.
const NUMBERS: usize = 0x10000;

fn is_relocatable_code(segment: &Segment) -> bool
    ensures { result ≡ spec.is_relocatable_code segment.now }
{
    segment.at.is_none() && segment.kind == SegKind::Code
}

// Where the first relocatable code of some pieces stands, the first of which has number 0.
#[tactic(auto, unfolding(crate::specs::Cover::code_base_from))]
fn base_among(segments: &[Segment], bases: &Bases) -> u16
    requires { length segments.now ≤ 65536 }
    ensures { result ≡ spec.code_base_from 0 segments.now (bases_in bases.now) }
{
    let mut left = segments;
    let mut number = 0u32;
    while let [segment, rest @ ..] = left {
        if is_relocatable_code(segment) {
            return bases.piece(number as u16);
        }
        number += 1;
        left = rest;
    }
    0
}

// The address of the relocatable code of a module, where it has such.
#[tactic(auto, using(std::proofs::lemmas::List::take_min))]
fn code_base(segments: &[Segment], bases: &Bases) -> u16
    ensures { result ≡ spec.code_base segments.now (bases_in bases.now) }
{
    base_among(&segments[..NUMBERS.min(segments.len())], bases)
}

// What the addresses of a statement count from.
fn from_base(at: Option<u16>, base: u16) -> u128
    ensures { result ≡ spec.from_base at base }
{
    match at {
        Some(_) => 0,
        None => u128::from(base),
    }
}

fn is_in_image(at: u128) -> bool
    ensures { result ≡ spec.is_in_image at }
{
    u128::from(IMAGE_START) <= at && at < 0x10000
}

// What the bytes of an image from an address on begin with.
fn decoded_at(image: &Image, at: u16) -> Decoded
    requires { image_start ≤ at }
    ensures { result ≡ spec.decoded_at image.now at }
{
    decode(&image.as_slice()[usize::from(at - IMAGE_START)..])
}

// Adds instructions, at most so many, from an address up to another.
#[tactic(auto, unfolding(crate::specs::Cover::instructions_from))]
fn add_from(
    own: &mut Vec<Instruction>,
    line: u32,
    most: u64,
    from: u128,
    end: u128,
    image: &Image,
) -> Result<(), NoMemory>
    ensures { OnOk result (own.new.items ≡ own.old.items ++ spec.instructions_from most line image.now from end) }
{
    let mut at = from;
    let mut left = most;
    while left > 0 {
        if at >= end || !is_in_image(at) {
            return Ok(());
        }
        let Decoded::Insn(insn, length) = decoded_at(image, at as u16) else {
            return Ok(());
        };
        own.push(Instruction {
            line,
            addr: at as u16,
            is_branch: is_branch(&insn),
        })?;
        at += u128::from(length);
        left -= 1;
    }
    Ok(())
}

// Adds the instructions of a statement.
fn add_statement(
    own: &mut Vec<Instruction>,
    spot: &Spot,
    base: u16,
    image: &Image,
) -> Result<(), NoMemory>
    ensures { OnOk result (own.new.items ≡ own.old.items ++ spec.instructions_of image.now base spot.now) }
{
    let first = from_base(spot.at, base);
    add_from(
        own,
        spot.line,
        spot.after.saturating_sub(spot.place),
        first + u128::from(spot.place),
        first + u128::from(spot.after),
        image,
    )
}

// The instructions of statements.
fn of_statements(
    alloc: Global,
    spots: &[Spot],
    base: u16,
    image: &Image,
) -> Result<Vec<Instruction>, NoMemory>
    ensures { IfOk result (λ own. own.items ≡ flat_map (spec.instructions_of image.now base) spots.now) }
{
    let mut own = Vec::new(alloc);
    let mut left = spots;
    while let [spot, rest @ ..] = left {
        add_statement(&mut own, spot, base, image)?;
        left = rest;
    }
    Ok(own)
}

// By rising line, those of a line in their order.
fn by_line(own: Vec<Instruction>) -> Result<Vec<Instruction>, NoMemory>
    ensures { IfOk result (λ sorted. spec.AreByLine own.items sorted.items) }
{
    let mut sorted = own;
    sorted.sort_by_key(|it| it.line)?;
    Ok(sorted)
}

// The instructions of a source with a text, at the places of its module.
fn instructions_of(
    alloc: Global,
    text: &[u8],
    object: &Module,
    bases: &Bases,
    image: &Image,
) -> Result<Vec<Instruction>, NoMemory>
    requires short { length text.now ≤ file_limit }
    requires made { IsModule text.now object.now }
    ensures { IfOk result (λ own. spec.AreOf text.now image.now object.now bases.now own.items) }
{
    let spots = match instructions(alloc, text) {
        Ok(spots) => spots,
        Err(SourceFault::NoMemory) => return Err(NoMemory),
        Err(_) => unreachable!(),
    };
    let base = code_base(object.segments(), bases);
    by_line(of_statements(alloc, &spots, base, image)?)
}

/// The instructions of sources at the places of their modules, as an image has them.
#[tactic(auto, unfolding(crate::specs::Cover::AreSources))]
pub(crate) fn sources_at<'a>(
    alloc: Global,
    names: &'a [String],
    texts: &[Vec<u8>],
    modules: &[Module],
    placement: &Placement,
    image: &Image,
) -> Result<Vec<Source<'a>>, NoMemory>
    requires placed { ArePlacedAt modules.now placement.now }
    requires count { length texts.now ≡ length names.now }
    requires short { AllShort (map (λ t. t.items) texts.now) }
    requires made { AreModules (map (λ t. t.items) texts.now) modules.now }
    ensures { IfOk result (λ sources. spec.AreSources (map string_bytes names.now) (map (λ t. t.items) texts.now) image.now modules.now (bases_from modules.now placement.now.places 0 modules.now) sources.items) }
{
    let mut sources = Vec::new(alloc);
    for i in 0..names.len() {
        let own = instructions_of(alloc, &texts[i], &modules[i], &placement.bases[i], image)?;
        sources.push(Source {
            name: names[i].as_str(),
            instructions: own,
        })?;
    }
    Ok(sources)
}

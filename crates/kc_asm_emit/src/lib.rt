//! What a statement puts into its piece, over what names mean where it stands: relocatable bytes, room, or a place to go on
//! to; how far it goes on; and the faults of its values. It stands on `kc_asm_encode`. Example: `DCW 1,2` puts 01 00 02 00,
//! `DSB 3` keeps room of three bytes, and `ORG 2080H` goes on to that address.
#![tactic(auto)]

pub mod alignment;
mod chosen;
pub mod content;
pub mod extent;
pub mod faults;
mod items;
pub mod laws;
pub mod operands;
pub mod values;

pub use alignment::{alignment_of, gap};
pub use chosen::content_of;
pub use content::Content;
pub use extent::{Extent, extent_of, operation_length};
pub use faults::fault;
pub use laws::{contents_are_paired, contents_are_relocatables, extents_stay};
pub use operands::arguments;
pub use values::{fixed_of, value_of};

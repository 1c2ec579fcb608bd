// The sources of an image.
use kc_link::Placement;
use kc_obj_module::Module;

/// What an image was linked from: the files of sources, the module of each, and where these stand.
#[derive(Drop)]
pub struct Sources<'a> {
    pub files: &'a [String],
    pub modules: Vec<Module>,
    pub placement: Placement,
}

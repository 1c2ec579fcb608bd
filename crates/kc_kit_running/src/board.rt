// What is run.
use kc_base::Image;
use kc_kit_inputs::Driving;

/// A board: the image that its memory holds, and what drives its inputs.
#[derive(Drop)]
pub struct Board {
    pub image: Image,
    pub driving: Driving,
}

// Calls of the public functions of form_file, each with the contract that its promises are about.
ghost use Rattle.form_file.specs.FormFile.{Forms};

use form_file::Formed;

pub fn read_form(text: &[u8], boxes: &mut [u32], places: &mut [u32]) -> Formed
    ensures { Forms text.now boxes.old places.old result boxes.new places.new }
{
    form_file::read_form(text, boxes, places)
}

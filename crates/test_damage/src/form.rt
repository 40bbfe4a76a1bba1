// The form, as the old tests take it and as the desk does. The insides of the twenty boxes (examples/README.md): for each digit its
// tens box and its units box. They stand in test_sheets too: a library that both use would have a public function of which nothing is
// to be promised.
use crate::copies;
use heads::Box;

fn boxes_of(top: u32, bottom: u32) -> [Box; 2] {
    [
        Box {
            left: 202,
            right: 224,
            top,
            bottom,
        },
        Box {
            left: 702,
            right: 724,
            top,
            bottom,
        },
    ]
}

pub(crate) fn form() -> [[Box; 2]; 10] {
    [
        boxes_of(78, 98),
        boxes_of(109, 129),
        boxes_of(140, 160),
        boxes_of(171, 191),
        boxes_of(202, 222),
        boxes_of(233, 253),
        boxes_of(264, 284),
        boxes_of(295, 315),
        boxes_of(326, 346),
        boxes_of(357, 377),
    ]
}

// The form file of the desk: the boxes, from how many pixels on one is ticked, and the frames and the gaps between them as places that must
// be black and white.
fn boxes_and_places() -> [u8; 1458] {
    *b"tens 0 202 224 78 98\n\
        tens 1 202 224 109 129\n\
        tens 2 202 224 140 160\n\
        tens 3 202 224 171 191\n\
        tens 4 202 224 202 222\n\
        tens 5 202 224 233 253\n\
        tens 6 202 224 264 284\n\
        tens 7 202 224 295 315\n\
        tens 8 202 224 326 346\n\
        tens 9 202 224 357 377\n\
        units 0 702 724 78 98\n\
        units 1 702 724 109 129\n\
        units 2 702 724 140 160\n\
        units 3 702 724 171 191\n\
        units 4 702 724 202 222\n\
        units 5 702 724 233 253\n\
        units 6 702 724 264 284\n\
        units 7 702 724 295 315\n\
        units 8 702 724 326 346\n\
        units 9 702 724 357 377\n\
        tick 20\n\
        doubt 6\n\
        black 202 224 76 78 40\n\
        white 202 224 100 107 2\n\
        black 702 724 76 78 40\n\
        white 702 724 100 107 2\n\
        black 202 224 107 109 40\n\
        white 202 224 131 138 2\n\
        black 702 724 107 109 40\n\
        white 702 724 131 138 2\n\
        black 202 224 138 140 40\n\
        white 202 224 162 169 2\n\
        black 702 724 138 140 40\n\
        white 702 724 162 169 2\n\
        black 202 224 169 171 40\n\
        white 202 224 193 200 2\n\
        black 702 724 169 171 40\n\
        white 702 724 193 200 2\n\
        black 202 224 200 202 40\n\
        white 202 224 224 231 2\n\
        black 702 724 200 202 40\n\
        white 702 724 224 231 2\n\
        black 202 224 231 233 40\n\
        white 202 224 255 262 2\n\
        black 702 724 231 233 40\n\
        white 702 724 255 262 2\n\
        black 202 224 262 264 40\n\
        white 202 224 286 293 2\n\
        black 702 724 262 264 40\n\
        white 702 724 286 293 2\n\
        black 202 224 293 295 40\n\
        white 202 224 317 324 2\n\
        black 702 724 293 295 40\n\
        white 702 724 317 324 2\n\
        black 202 224 324 326 40\n\
        white 202 224 348 355 2\n\
        black 702 724 324 326 40\n\
        white 702 724 348 355 2\n\
        black 202 224 355 357 40\n\
        white 202 224 379 386 2\n\
        black 702 724 355 357 40\n\
        white 702 724 379 386 2\n"
}

fn page() -> [u8; 14] {
    *b"page 1728 400\n"
}

// A form that is looked for has the left sides of four frames for places too, so that it fits at one offset alone.
fn page_aside() -> [u8; 124] {
    *b"page 1728 400 406\n\
        shift 4 6\n\
        black 200 202 78 98 36\n\
        black 200 202 357 377 36\n\
        black 700 702 78 98 36\n\
        black 700 702 357 377 36\n"
}

// The form file: behind the boxes and the places the page. How many bytes it has.
pub(crate) fn text(aside: bool, out: &mut [u8]) -> usize {
    let first = boxes_and_places();
    copies::shift(&first, 0, out, 0);
    if aside {
        let last = page_aside();
        copies::shift(&last, 0, out, first.len());
        return first.len() + last.len();
    }
    let last = page();
    copies::shift(&last, 0, out, first.len());
    first.len() + last.len()
}

// What is made for a linked set.
use merge_dl::DlNumbers;
use merge_index::Numbers;
use merge_start::StartNumbers;
use wasm_form::Module;

/// The merged module of a linked set, and the numbers of what it has.
///
/// `numbers` are those of what the members have, and `start` those that generated code names. `entry` is the number of the function that the
/// program begins with; the module exports the function that runs the phases first and then calls it. `dl` has the numbers that the
/// functions of the loader name, and is None exactly where no member imports one of these as a function or by `GOT.func`. With n members, the
/// function that opens member m is then `start.first_function + 4 n + m`, for which `dl.opens` has it at m.
#[derive(Drop)]
pub struct Parts {
    pub module: Module,
    pub numbers: Numbers,
    pub start: StartNumbers,
    pub entry: u32,
    pub dl: Option<DlNumbers>,
}

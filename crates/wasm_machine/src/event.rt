// What a step comes to.
use wasm_form::{Asked, LoaderCall, Trap};

/// What a step came to.
///
/// `Moved` is a step that the code goes on from. `Waits` asks for the answer of a host function, and `Loader` for the result of
/// a function of the loader, whose arguments are the first and the second, or 0 where there are fewer. `Marked` says that a mark
/// is on top. `Returned`, `Trapped` and `Exited` are ends. `Deep` says that the step would pass a limit of depth.
#[derive(Drop)]
pub enum Event {
    Moved,
    Waits(Asked),
    Loader {
        call: LoaderCall,
        first: u32,
        second: u32,
    },
    Marked(u32),
    Returned,
    Trapped(Trap),
    Exited(u32),
    Deep,
}

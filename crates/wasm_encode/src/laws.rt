// Laws of what is written, which say nothing of code.
ghost use Rattle.wasm_encode.specs.Laws.{BodiesAreBounded, LightModulesFit, OneShortestModule, SectionsAreBounded, WeightIsLeast};

/// A module of which there is little to write has no section that is too long.
pub fn light_modules_fit()
    ensures { LightModulesFit }
{}

/// A module weighs no more than the bytes that spell it; and however they are spelled, its sections and its bodies take at most 16 bytes for
/// each that the section weighs, and 16.
pub fn weights_bound_lengths()
    ensures least { WeightIsLeast }
    ensures sections { SectionsAreBounded }
    ensures bodies { BodiesAreBounded }
{}

/// A module without custom sections has one shortest spelling: what `encode` gives.
pub fn one_shortest_module()
    ensures { OneShortestModule }
{}

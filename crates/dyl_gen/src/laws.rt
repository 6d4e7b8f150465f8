// What comes of the files.
ghost use Rattle.dyl_gen.specs.Laws.{GathersNoFault, GathersLittle, LinksByPages, LinksWithinPages, NeedsThreePages};

/// The files of a generated set are gathered without a fault, into a set of one member more than was asked for, of which there is little. Over
/// host functions that have `fd_write` it links, or it has too few pages; it needs three where the stack has 65,536 bytes.
pub fn generated_set_links()
    ensures gathered { GathersNoFault }
    ensures small { GathersLittle }
    ensures pages { LinksByPages }
    ensures links { LinksWithinPages }
    ensures three { NeedsThreePages }
{}

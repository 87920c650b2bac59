//! Laws of embeddings: a function that does nothing, whose clauses are the laws.
ghost use Rattle.ff_embed.specs.Theorems.{EndsAreFinite, ImageDetermines, MapThroughIsDetermined};

/// The ends of what an `Embedding` is seen as are finite fields; between two fields the image of
/// the generator determines it; and two embeddings between the same fields are equal where a third
/// one that follows them gives the same map.
pub fn embeddings_are_determined()
    ensures ends { EndsAreFinite }
    ensures image { ImageDetermines }
    ensures through { MapThroughIsDetermined }
{}

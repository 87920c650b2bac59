//! Compositions of embeddings, inverses of isomorphisms, and the map through which one goes.
ghost use Rattle.std.specs.Prelude.{◌≡◌};
ghost use Prim.Native.Nat.{◌∣◌};
ghost use Rattle.alg_model.specs.Maps.{degree_of, comp, identity_map};
ghost use Rattle.ff_embed.specs.SmallEmbeddings.{IsSmallEmbedding};

use crate::Embedding;

impl Embedding {
    /// This embedding followed by `next`, which begins where this ends.
    pub fn compose(&self, next: &Embedding) -> Embedding
        requires { next.now.source ≡ self.now.target }
        ensures source { result.source ≡ self.now.source }
        ensures target { result.target ≡ next.now.target }
        ensures images { result.images ≡ comp next.now.target self.now.images next.now.images }
        ensures whole { IsSmallEmbedding result }
    {
        Embedding::of_parts(
            self.source_poly().copy(),
            next.target_poly().copy(),
            next.images().mul(self.images()),
            self.inverse().mul(next.inverse()),
        )
    }

    /// The inverse; both fields have one degree, so that the embedding is an isomorphism.
    pub fn invert(&self) -> Embedding
        requires { degree_of self.now.source ≡ degree_of self.now.target }
        ensures source { result.source ≡ self.now.target }
        ensures target { result.target ≡ self.now.source }
        ensures back { comp self.now.source self.now.images result.images
            ≡ identity_map self.now.source }
        ensures forth { comp self.now.target result.images self.now.images
            ≡ identity_map self.now.target }
        ensures whole { IsSmallEmbedding result }
    {
        Embedding::of_parts(
            self.target_poly().copy(),
            self.source_poly().copy(),
            self.inverse().copy(),
            self.images().copy(),
        )
    }

    /// The one map from the source of `i_to_f` to that of `j_to_f` which, followed by `j_to_f`, is
    /// `i_to_f`. Both end in one field, and the degree of the first source divides that of the
    /// second.
    pub fn through(i_to_f: &Embedding, j_to_f: &Embedding) -> Embedding
        requires target { i_to_f.now.target ≡ j_to_f.now.target }
        requires divides { degree_of i_to_f.now.source ∣ degree_of j_to_f.now.source }
        ensures source { result.source ≡ i_to_f.now.source }
        ensures target { result.target ≡ j_to_f.now.source }
        ensures images { comp j_to_f.now.target result.images j_to_f.now.images
            ≡ i_to_f.now.images }
        ensures whole { IsSmallEmbedding result }
    {
        Embedding::of_parts(
            i_to_f.source_poly().copy(),
            j_to_f.source_poly().copy(),
            j_to_f.inverse().mul(i_to_f.images()),
            i_to_f.inverse().mul(j_to_f.images()),
        )
    }
}

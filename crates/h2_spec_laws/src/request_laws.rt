//! Laws of requests, each on a function with an empty body: its contract is the law.
//! They speak of `h2_spec/specs/Requests/Request.antt` and `h2_spec/specs/Requests/Reasons.antt`; their lemmas are in `RequestLaws` of
//! `h2_spec/proofs`.

ghost use Rattle.std.specs.Prelude.{◌≡◌, ℕ, List, ◌∷◌, true, false};
ghost use Rattle.h2_spec.specs.Hpack.Field.{Field};
ghost use Rattle.h2_spec.specs.Requests.Request.{malformed, malformed_trailers, value_named};
ghost use Rattle.h2_spec.specs.Requests.Answer.{response_block};
ghost use Rattle.h2_spec.specs.Requests.Reasons.{IsReason, IsTrailersReason, IsLeast, IsValueNamed};

/// The reason that makes a request malformed is the least one that the places of its fields in their list give, and
/// there is none where no place gives one (RFC 9113, 8.1.1, 8.2, 8.3 and 8.5).
pub fn malformed_is_the_least_reason()
    ensures { (fields : List Field) → IsLeast (IsReason fields) (malformed fields) }
{}

/// The reason that makes trailers malformed is the least one too; trailers have no pseudo-field (RFC 9113, 8.1).
pub fn malformed_trailers_is_the_least_reason()
    ensures { (fields : List Field) → IsLeast (IsTrailersReason fields) (malformed_trailers fields) }
{}

/// A request's values by name are those of the first fields that have the name (RFC 9113, 8.3.1).
pub fn values_are_the_first_named()
    ensures { (name : List ℕ) (fields : List Field) → IsValueNamed name fields (value_named name fields) }
{}

/// A table size update to 0 is one octet before the same block (RFC 7541, 6.3).
pub fn size_update_comes_first()
    ensures { (status : ℕ) (fields : List Field) → response_block true status fields ≡ 32 ∷ response_block false status fields }
{}

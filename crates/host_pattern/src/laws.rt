//! What the definitions of `specs/` come to. Each function states one law and does nothing.
ghost use Rattle.std.specs.Prelude.{◌≡◌, ◌≢◌, ◌↔◌, ◌<◌, ℕ, List, [], ◌∷◌, ◌++◌, Bool, true, false, not, ◌||◌, ◌==◌, nat_eq, slice_index, IsTrue, Ok, Some, None, is_ok, is_some};
ghost use Rattle.std.specs.Fmt.{decimal};
ghost use Rattle.std.specs.Int.{bit_at};
ghost use Rattle.std.specs.List.{list_all, starts_with, ends_with};
ghost use Rattle.std.specs.Str.{bytes_eq};
ghost use Rattle.fw_types.specs.Quad.{dotted};
ghost use Rattle.fw_types.specs.declared.peer.Peer.{Peer};
ghost use Rattle.host_pattern.specs.declared.bucket.Bucket.TheVariants.{Octet};
ghost use Rattle.host_pattern.specs.declared.mask.Masked.{Masked};
ghost use Rattle.host_pattern.specs.Bucket.{bucket_of, list_reaches, octet_masked};
ghost use Rattle.host_pattern.specs.Glob.{glob, is_plain};
ghost use Rattle.host_pattern.specs.Mask.{agree, has_colon, masked_of, octets_agree};
ghost use Rattle.host_pattern.specs.Party.{is_unknown, is_stars, is_for_addresses, body_matches};
ghost use Rattle.host_pattern.specs.Pattern.{Written, is_body, body_of, parsed, written};
ghost use Rattle.host_pattern.specs.PatternList.{list_matches};

/// Without a star a pattern stands for itself alone.
pub fn plain_is_itself()
    ensures { (p t : List ℕ) → IsTrue (is_plain p) → glob p t ≡ bytes_eq p t }
{}

/// A star at the end stands for whatever follows: `10.*` for every text that begins with `10.`, and `*` for every text.
pub fn star_at_end()
    ensures { (p t : List ℕ) → IsTrue (is_plain p) → glob (p ++ 42 ∷ []) t ≡ starts_with nat_eq t p }
{}

/// A star at the beginning stands for whatever comes before: `*.tis.com` for every text that ends with `.tis.com`.
pub fn star_at_beginning()
    ensures { (p t : List ℕ) → IsTrue (is_plain p) → glob (42 ∷ p) t ≡ ends_with nat_eq t p }
{}

/// A body of stars alone matches every party.
pub fn stars_match_everyone()
    ensures { (body : List ℕ) (party : Peer) → IsTrue (is_stars body) → IsTrue (body_matches body party) }
{}

/// A body for names matches no party without a name.
pub fn names_need_a_name()
    ensures { (body : List ℕ) (party : Peer) → is_unknown body ≡ false → is_for_addresses body ≡ false →
        has_colon body ≡ false → party.name ≡ None → body_matches body party ≡ false }
{}

/// A body with a colon matches no party without an address.
pub fn masks_need_an_address()
    ensures { (body : List ℕ) (party : Peer) → IsTrue (has_colon body) → party.addr ≡ None
        → body_matches body party ≡ false }
{}

/// An address and a mask match a party whose address equals that one in every bit that the mask has.
pub fn masks_compare_their_bits()
    ensures { (body : List ℕ) (masked : Masked) (party : Peer) (addr : List ℕ) → masked_of body ≡ Some masked →
        party.addr ≡ Some addr → body_matches body party ≡ agree masked.mask masked.address addr }
{}

/// Two octets agree under a mask's octet exactly if each bit that is set in the mask is the same in both.
pub fn octets_agree_bit_by_bit()
    ensures { (mask one other : ℕ) → IsTrue (octets_agree mask one other)
        ↔ ((i : ℕ) → bit_at mask i ≡ 1 → bit_at one i ≡ bit_at other i) }
{}

/// They are written as two dotted quads joined by a colon.
pub fn masks_are_two_quads()
    ensures { (body : List ℕ) (masked : Masked) → masked_of body ≡ Some masked
        → body ≡ dotted masked.address ++ 58 ∷ dotted masked.mask }
{}

/// A body for addresses, other than stars alone, matches no party without an address.
pub fn addresses_need_an_address()
    ensures { (body : List ℕ) (party : Peer) → IsTrue (is_for_addresses body) → is_stars body ≡ false →
        party.addr ≡ None → body_matches body party ≡ false }
{}

/// A body of digits, periods and stars that begins with the decimal of an octet and a period belongs to this octet.
pub fn bodies_of_an_octet()
    ensures { (octet : ℕ) (rest : List ℕ) → octet < 256 → IsTrue (is_for_addresses (decimal octet ++ 46 ∷ rest))
        → bucket_of (decimal octet ++ 46 ∷ rest) ≡ Octet octet }
{}

/// So does an address that begins with the octet and has a mask that begins with 255.
pub fn masks_of_an_octet()
    ensures { (body : List ℕ) (masked : Masked) → masked_of body ≡ Some masked → slice_index masked.mask 0 ≡ 255
        → bucket_of body ≡ Octet (slice_index masked.address 0) }
{}

/// And no other body does: each begins with the octet's decimal and a period, and is of one of these two kinds.
pub fn octets_of_a_body()
    ensures { (body : List ℕ) (octet : ℕ) → bucket_of body ≡ Octet octet →
        (octet < 256) × IsTrue (is_for_addresses body || is_some (octet_masked (masked_of body)))
        × ((rest : List ℕ) × (body ≡ decimal octet ++ 46 ∷ rest)) }
{}

/// A body of an octet matches no party whose address begins with another octet.
pub fn other_octets_are_not_matched()
    ensures { (body : List ℕ) (octet : ℕ) (party : Peer) (first second third fourth : ℕ) → bucket_of body ≡ Octet octet →
        party.addr ≡ Some (first ∷ second ∷ third ∷ fourth ∷ []) → first < 256 → first ≢ octet
        → body_matches body party ≡ false }
{}

/// A body of an octet matches no party without an address.
pub fn octets_need_an_address()
    ensures { (body : List ℕ) (octet : ℕ) (party : Peer) → bucket_of body ≡ Octet octet → party.addr ≡ None
        → body_matches body party ≡ false }
{}

/// A list that matches a party with an address has a pattern that belongs to its first octet or to every one.
pub fn lists_reach_the_octet()
    ensures { (patterns : List Written) (party : Peer) (first second third fourth : ℕ) →
        party.addr ≡ Some (first ∷ second ∷ third ∷ fourth ∷ []) → first < 256 → IsTrue (list_matches patterns party)
        → IsTrue (list_reaches first patterns) }
{}

/// The first pattern whose body matches decides.
pub fn first_match_decides()
    ensures { (p : Written) (ps : List Written) (party : Peer) → IsTrue (body_matches p.body party) →
        list_matches (p ∷ ps) party ≡ not p.negated }
{}

/// A pattern whose body does not match might as well not stand in the list.
pub fn others_are_passed()
    ensures { (p : Written) (ps : List Written) (party : Peer) → body_matches p.body party ≡ false →
        list_matches (p ∷ ps) party ≡ list_matches ps party }
{}

/// The patterns are the texts whose body is 1 to 255 letters, digits, `.`, `-`, `_` and `*`, or an address and a mask.
pub fn patterns_are_these()
    ensures { (text : List ℕ) → is_ok (parsed text) ≡ is_body (body_of text) }
{}

/// A pattern that is written down reads as itself.
pub fn written_reads_back()
    ensures { (p : Written) → IsTrue (is_body p.body) → parsed (written p) ≡ Ok p }
{}

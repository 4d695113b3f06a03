//! Laws of the definitions: the functions here do nothing.
ghost use Rattle.std.specs.Prelude.{◌≡◌, ◌∷◌, ℕ, List, [], codes, drop, false, take};
ghost use Rattle.object_pool.specs.Objects.{Object as ObjectOf, exists, nothing, settled};
ghost use Rattle.object_words.specs.declared.head.SeenSlot.TheVariants.{Live, Mark};
ghost use Rattle.object_words.specs.Heads.{Head as HeadOf, no_head};
ghost use Rattle.object_words.specs.Tails.{Tail as TailOf, no_tail};
ghost use Rattle.cls_head.specs.Heads.{IsHead};
ghost use Rattle.cls_head.specs.Layouts.{head_bytes};
ghost use Rattle.cls_head.specs.Tails.{IsTail};

/// An object is one head at most, and a head stands in one object.
pub fn a_head_has_one_spelling()
    ensures one_object { (o p : ObjectOf) (h : HeadOf) → IsHead o h → IsHead p h → o ≡ p }
    ensures one_head { (o : ObjectOf) (g h : HeadOf) → IsHead o g → IsHead o h → g ≡ h }
{}

/// An object is one tail at most, and a tail stands in one object.
pub fn a_tail_has_one_spelling()
    ensures one_object { (o p : ObjectOf) (t : TailOf) → IsTail o t → IsTail p t → o ≡ p }
    ensures one_tail { (o : ObjectOf) (t u : TailOf) → IsTail o t → IsTail o u → t ≡ u }
{}

/// A head that was never changed, and a tail that was never made, are no objects.
pub fn what_is_absent_is_no_object()
    ensures no_head { IsHead nothing no_head }
    ensures no_tail { IsTail nothing no_tail }
    ensures head { (o : ObjectOf) (h : HeadOf) → IsHead o h → exists o ≡ false → h ≡ no_head }
    ensures tail { (o : ObjectOf) (t : TailOf) → IsTail o t → exists o ≡ false → t ≡ no_tail }
    ensures settled_head { (o : ObjectOf) (h : HeadOf) → IsHead o h → IsHead (settled o) h }
    ensures settled_tail { (o : ObjectOf) (t : TailOf) → IsTail o t → IsTail (settled o) t }
{}

/// A live head, written by another program: by event 9, at moment 50 in zone 2, with the ETag of no
/// bytes, 20 bytes in stripes of 16 by write 5, the type `a/b`, and `v` under `k`.
pub(crate) const WRITTEN: [u8; 94] = [
    0xeb, 1, 1, 0, 0, 0, 0, 0, 0, 0, 9, 0, 0, 0, 0, 0, 0, 0, 50, 2, 0xd4, 0x1d, 0x8c, 0xd9, 0x8f,
    0x00, 0xb2, 0x04, 0xe9, 0x80, 0x09, 0x98, 0xec, 0xf8, 0x42, 0x7e, 1, 0, 0, 0, 0, 0, 0, 0, 5, 0,
    0, 0, 16, 0, 0, 0, 0, 0, 0, 0, 20, 0, 0, 0, 0, 0, 0, 0, 3, b'a', b'/', b'b', 0, 0, 0, 0, 0, 0,
    0, 1, 0, 0, 0, 0, 0, 0, 0, 1, b'k', 0, 0, 0, 0, 0, 0, 0, 1, b'v',
];

/// The mark of a deletion at the same moment.
const MARK: [u8; 20] = [
    0xeb, 1, 2, 0, 0, 0, 0, 0, 0, 0, 9, 0, 0, 0, 0, 0, 0, 0, 50, 2,
];

/// How a live head and a mark are written, and that a head that was never changed is not.
#[tactic(auto, unfolding(index_entry::specs::Numbers::number_bytes))]
pub fn heads_are_written_so()
    ensures live { (first : List ℕ) → head_bytes (record {
      version = 9;
      slot = Live (record {
        manifest = record { write = 5; stripe = 16; size = 20 };
        first = first;
        kind = codes "a/b";
        meta = (codes "k", codes "v") ∷ [];
        etag = take 16 (drop 20 WRITTEN);
      }) (record { micros = 50; zone = 2 });
    }) ≡ WRITTEN }
    ensures mark { head_bytes (record { version = 9; slot = Mark (record { micros = 50; zone = 2 }) }) ≡ MARK }
    ensures none { head_bytes no_head ≡ [] }
{}

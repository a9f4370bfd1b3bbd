//! Theorems over the definitions of frames and faults alone. The functions do nothing: each theorem is a contract.
ghost use Rattle.std.specs.Prelude.{◌≡◌, ◌≢◌, ℕ, ◌/◌, ◌%◌, ◌<◌, ◌⊎◌, Bool, IsTrue, List, [], ◌∷◌, length, take};
ghost use Rattle.frame_check.specs.declared.check.Check.{Check};
ghost use Rattle.shared_terms.specs.declared.role.Role.{Role};
ghost use Rattle.lapm_frames.specs.declared.frame.Frame.{Frame};
ghost use Rattle.lapm_frames.specs.declared.fault.FrameFault.{FrameFault};
ghost use Rattle.lapm_frames.specs.Frame.{address_of, has_number, most_octets, spelled, IsFrame, FrameSpelling};
ghost use Rattle.lapm_frames.specs.Fault.{FirstFault};
ghost use Rattle.lapm_frames.specs.Controls.{Has};
ghost use Rattle.lapm_frames.specs.Checked.{check_for, check_heard, checked, SpellsFrame};

/// A frame has one spelling.
pub fn one_spelling()
    ensures exists { (frame : Frame) (sender : Role) (dlci : ℕ) → IsFrame frame
        → FrameSpelling frame sender dlci (spelled frame sender dlci) }
    ensures no_other { (frame : Frame) (sender : Role) (dlci : ℕ) (octets others : List ℕ)
        → FrameSpelling frame sender dlci octets → FrameSpelling frame sender dlci others → octets ≡ others }
{}

/// A spelling is that of one frame.
pub fn one_frame()
    ensures { (frame other : Frame) (sender : Role) (dlci : ℕ) (octets : List ℕ)
        → FrameSpelling frame sender dlci octets → FrameSpelling other sender dlci octets → frame ≡ other }
{}

/// A frame has one spelling with its check, and no other frame has that.
pub fn one_checked()
    ensures exists { (check : Check) (frame : Frame) (sender : Role) (dlci : ℕ) → IsFrame frame
        → SpellsFrame check sender dlci (checked check sender dlci frame) frame }
    ensures no_other { (check : Check) (frame : Frame) (sender : Role) (dlci : ℕ) (whole : List ℕ)
        → SpellsFrame check sender dlci whole frame → whole ≡ checked check sender dlci frame }
    ensures one_frame { (check : Check) (frame other : Frame) (sender : Role) (dlci : ℕ) (whole : List ℕ)
        → SpellsFrame check sender dlci whole frame → SpellsFrame check sender dlci whole other → frame ≡ other }
{}

/// By which check octets are judged: ends that agreed on that of 16 bits judge all octets by it, and others judge a frame's octets by the
/// check that it has.
pub fn judged()
    ensures sixteen { (whole : List ℕ) → check_heard Check.Sixteen whole ≡ Check.Sixteen }
    ensures of_frame { (check : Check) (frame : Frame) (sender : Role) (dlci : ℕ)
        → check_heard check (checked check sender dlci frame) ≡ check_for check frame }
{}

/// Octets have one first fault at most, and none where they are a frame.
pub fn one_fault()
    ensures one { (sender : Role) (dlci : ℕ) (octets : List ℕ) (fault other : FrameFault)
        → FirstFault sender dlci octets fault → FirstFault sender dlci octets other → fault ≡ other }
    ensures never_both { (frame : Frame) (sender : Role) (dlci : ℕ) (octets : List ℕ) (fault : FrameFault)
        → FrameSpelling frame sender dlci octets → FirstFault sender dlci octets fault → ⊥ }
{}

/// The faults by the octets: nothing; an address of two octets, or that of another channel; an address alone; no control octet of
/// a command, or of a response; a frame that lacks N(R); more octets than the kind has.
pub fn faults_by_octets()
    ensures nothing { (sender : Role) (dlci : ℕ) → FirstFault sender dlci [] FrameFault.Short }
    ensures address { (sender : Role) (dlci octet : ℕ) (rest : List ℕ)
        → (octet % 2 ≡ 0) ⊎ (octet / 4 ≢ dlci)
        → FirstFault sender dlci (octet ∷ rest) (FrameFault.Address octet) }
    ensures address_alone { (sender : Role) (dlci octet : ℕ) → octet % 2 ≡ 1 → octet / 4 ≡ dlci
        → FirstFault sender dlci (octet ∷ []) FrameFault.Short }
    ensures control { (sender : Role) (dlci octet : ℕ) (command : Bool) (rest : List ℕ)
        → ((frame : Frame) → Has command octet frame → ⊥)
        → FirstFault sender dlci (address_of command sender dlci ∷ octet ∷ rest) (FrameFault.Control octet) }
    ensures no_number { (frame : Frame) (sender : Role) (dlci : ℕ) → IsFrame frame → IsTrue (has_number frame)
        → FirstFault sender dlci (take 2 (spelled frame sender dlci)) FrameFault.Short }
    ensures too_many { (frame : Frame) (sender : Role) (dlci : ℕ) (octets : List ℕ) → IsFrame frame
        → take 2 octets ≡ take 2 (spelled frame sender dlci) → most_octets frame < length octets
        → FirstFault sender dlci octets (FrameFault.Long (length octets)) }
{}

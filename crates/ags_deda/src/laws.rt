//! What the definitions of the panel mean, over every list of happenings (docs/PANEL.md).

ghost use Rattle.std.specs.Prelude.{◌≡◌, ℕ, ◌+◌, ◌<◌, ◌%◌, true, false, List, [], ◌∷◌, ◌++◌, length, replicate};
ghost use Rattle.ags_deda.specs.declared.keys.Key.{Key};
ghost use Rattle.ags_deda.specs.declared.keys.Key.TheVariants as key;
ghost use Rattle.ags_deda.specs.Key.{is_clr, is_sign, key_digit, key_character};
ghost use Rattle.ags_deda.specs.Form.{are_lawful, taken, in_readout, is_held};
ghost use Rattle.ags_deda.specs.Happening.{Happening, Pressed, Shown, since_clear, keys_of};
ghost use Rattle.ags_deda.specs.Panel.{counted, group_shown, columns_of, group_text, text, unsent, pressing, showing};

/// CLR blanks the display, puts the light out, and drops what was left to be sent.
pub fn clr_begins_anew()
    ensures text { (happenings : List Happening) → text (Pressed key.Clr ∷ happenings) ≡ replicate 10 32 }
    ensures unsent { (happenings : List Happening) → unsent (Pressed key.Clr ∷ happenings) ≡ [] }
{}

/// The first key that makes the keys unlawful, and each one after it but CLR, leaves the nine columns as they were, with
/// OPR ERR lit and nothing to be sent. No key makes unlawful keys lawful again.
pub fn wrong_keys_light_the_light()
    ensures text { (pressed : Key) (happenings : List Happening) → is_clr pressed ≡ false → are_lawful (pressed ∷ keys_of (since_clear happenings)) ≡ false
        → text (Pressed pressed ∷ happenings) ≡ columns_of (group_shown (since_clear happenings)) (taken (keys_of (since_clear happenings))) ++ 69 ∷ [] }
    ensures unsent { (pressed : Key) (happenings : List Happening) → is_clr pressed ≡ false → are_lawful (pressed ∷ keys_of (since_clear happenings)) ≡ false
        → unsent (Pressed pressed ∷ happenings) ≡ [] }
    ensures stay { (pressed : Key) (keys : List Key) → are_lawful keys ≡ false → are_lawful (pressed ∷ keys) ≡ false }
{}

/// A whole entry is displayed as it was keyed, and sends its nine digits.
pub fn entries_send_their_digits()
    ensures text { (a b c d e f g h : ℕ) (sign : Key) (happenings : List Happening) → a < 8 → b < 8 → c < 8 → is_sign sign ≡ true → d < 10 → e < 10 → f < 10 → g < 10 → h < 10
        → text (pressing (key.Clr ∷ key.Digit a ∷ key.Digit b ∷ key.Digit c ∷ sign ∷ key.Digit d ∷ key.Digit e ∷ key.Digit f ∷ key.Digit g ∷ key.Digit h ∷ key.Entr ∷ []) happenings)
        ≡ (48 + a) ∷ (48 + b) ∷ (48 + c) ∷ key_character sign ∷ (48 + d) ∷ (48 + e) ∷ (48 + f) ∷ (48 + g) ∷ (48 + h) ∷ 32 ∷ [] }
    ensures unsent { (a b c d e f g h : ℕ) (sign : Key) (happenings : List Happening) → a < 8 → b < 8 → c < 8 → is_sign sign ≡ true → d < 10 → e < 10 → f < 10 → g < 10 → h < 10
        → unsent (pressing (key.Clr ∷ key.Digit a ∷ key.Digit b ∷ key.Digit c ∷ sign ∷ key.Digit d ∷ key.Digit e ∷ key.Digit f ∷ key.Digit g ∷ key.Digit h ∷ key.Entr ∷ []) happenings)
        ≡ a ∷ b ∷ c ∷ key_digit sign ∷ d ∷ e ∷ f ∷ g ∷ h ∷ [] }
{}

/// A readout sends the three digits of its address, and six times 15.
pub fn readouts_send_their_address()
    ensures { (a b c : ℕ) (happenings : List Happening) → a < 8 → b < 8 → c < 8
        → unsent (pressing (key.Clr ∷ key.Digit a ∷ key.Digit b ∷ key.Digit c ∷ key.ReadOut ∷ []) happenings) ≡ a ∷ b ∷ c ∷ replicate 6 15 }
{}

/// Nine digits that are shown in a readout after whole groups, while HOLD is not in force, are displayed, each in its
/// column.
pub fn groups_are_displayed()
    ensures { (a b c s d e f g h : ℕ) (happenings : List Happening) → in_readout (keys_of (since_clear happenings)) ≡ true → is_held (keys_of (since_clear happenings)) ≡ false
        → length (counted (since_clear happenings)) % 9 ≡ 0
        → text (showing (a ∷ b ∷ c ∷ s ∷ d ∷ e ∷ f ∷ g ∷ h ∷ []) happenings) ≡ group_text (a ∷ b ∷ c ∷ s ∷ d ∷ e ∷ f ∷ g ∷ h ∷ []) ++ 32 ∷ [] }
{}

/// While HOLD is in force, and outside a readout, no shown digit changes the display.
pub fn hold_keeps_the_display()
    ensures held { (digit : ℕ) (happenings : List Happening) → is_held (keys_of (since_clear happenings)) ≡ true → text (Shown digit ∷ happenings) ≡ text happenings }
    ensures outside { (digit : ℕ) (happenings : List Happening) → in_readout (keys_of (since_clear happenings)) ≡ false → text (Shown digit ∷ happenings) ≡ text happenings }
{}

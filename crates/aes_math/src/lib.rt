// What FIPS 197 says of bytes, words and states, with its laws: definitions in specs/, no code of the cipher itself.
#![tactic(auto)]

ghost use Rattle.aes_math.specs.Facts.{Ciphers, Products, Substitution};

// The substitution is the inverse and the affine map, and is undone; the standard's worked products come out.
pub fn substitution_stands()
    ensures substitution { Substitution }
    ensures products { Products }
{}

// InvCipher and Cipher undo each other, for any round keys and any number of rounds.
pub fn ciphers_stand()
    ensures { Ciphers }
{}

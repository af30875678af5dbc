//! Worked examples of settings. Each function is a law: what the definitions compute.
ghost use Rattle.std.specs.Prelude.{◌≡◌, [], codes};
ghost use Rattle.settings_digest.specs.Digest.{normal_settings};

/// Comments, lines of no words, needless blanks, and whatever comes from `begin` on leave no trace; the order of lines, and
/// a sign `#` that is not the first byte of its line, do.
#[tactic(auto, unfolding(crate::specs::Opens::normal_opens))]
pub fn normal_settings_are()
    ensures plain { normal_settings (codes "mode rings\nnode 1\nbegin\n")
        ≡ codes "mode rings\nnode 1\n" }
    ensures cut { normal_settings (codes "# a\n\nmode  rings\n  \n node 1 \n#\n begin \nnode 2\n")
        ≡ codes "mode rings\nnode 1\n" }
    ensures order { normal_settings (codes "node 1\nmode rings\nbegin\n")
        ≡ codes "node 1\nmode rings\n" }
    ensures sign { normal_settings (codes " # a\nnode 1 #\nbegin\n") ≡ codes "# a\nnode 1 #\n" }
    ensures open { normal_settings (codes "node 1\nhb 2  5") ≡ codes "node 1\nhb 2 5\n" }
    ensures none { normal_settings (codes "begin\nnode 1\n") ≡ [] }
{}

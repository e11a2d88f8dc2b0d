// Five places as a renaming: new names, old names, and the test of a renaming.
ghost use Rattle.std.specs.Prelude.{◌≡◌, ◌&&◌, true, [], ◌∷◌};
ghost use Rattle.renamings.specs.Names.{new_name, inverted, Inward, in_place, is_new, is_renaming};

// The new name of replica i.
#[tactic(auto, unfolding(crate::specs::Names::new_name))]
pub(crate) fn new_name(p: [u8; 5], i: u8) -> u8
    ensures { result ≡ new_name p i }
{
    if i < 5 { p[i as usize] } else { i }
}

// The inverse: the old names of the replicas whose new names are 0 to 4. The caller shows that each new name is below five.
#[tactic(auto, using(crate::specs::CodeLaws::new_name_place, crate::specs::CodeLaws::inverse_start, crate::specs::CodeLaws::inverse_turn, crate::specs::CodeLaws::inverse_end))]
pub fn inverse(p: [u8; 5]) -> [u8; 5]
    requires { Inward p }
    ensures { result ≡ inverted p }
{
    let mut back = [0, 1, 2, 3, 4];
    for i in 0..5 {
        back[p[i as usize] as usize] = i;
    }
    back
}

// Whether place i holds a number below n, where i is below n, and else its own number.
#[tactic(auto, unfolding(crate::specs::Names::in_place))]
fn in_place(n: u8, p: [u8; 5], i: u8) -> bool
    ensures { result ≡ in_place n p i }
{
    let name = new_name(p, i);
    if i < n { name < n } else { name == i }
}

// Whether no place before i holds the same number.
fn is_new(p: [u8; 5], i: u8) -> bool
    ensures { result ≡ is_new p i }
{
    let name = new_name(p, i);
    (0..i).all(|j| name != new_name(p, j))
}

// Whether place i passes both tests.
fn place_fits(n: u8, p: [u8; 5], i: u8) -> bool
    ensures { result ≡ in_place n p i && is_new p i }
{
    in_place(n, p, i) && is_new(p, i)
}

// Whether the five places are a renaming of n replicas.
pub fn is_renaming(n: u8, p: [u8; 5]) -> bool
    ensures { result ≡ is_renaming n p }
{
    (0..5).all(|i| place_fits(n, p, i))
}

// A renaming of five replicas: place i holds the new name of replica i. That each of them is below five stands beside, since arrays
// are read by them.
#[derive(Clone, Copy)]
pub struct Renaming {
    pub names: [u8; 5],
    ghost of_five: { is_renaming 5 names ≡ true },
    ghost inward: { Inward names },
}

impl Renaming {
    // The renaming by five places, of which the caller shows that they are one.
    #[tactic(auto, using(crate::specs::CodeLaws::both_inward))]
    pub fn new(names: [u8; 5]) -> Renaming
        requires { is_renaming 5 names ≡ true }
        ensures { result.names ≡ names }
    {
        Renaming { names }
    }

    // The renaming that leaves every name.
    #[tactic(auto, unfolding(crate::specs::Names::is_renaming, crate::specs::Names::in_place, crate::specs::Names::is_new, crate::specs::Names::new_name, logic::specs::Tests::all_below))]
    pub fn identity() -> Renaming
        ensures { result.names ≡ 0 ∷ 1 ∷ 2 ∷ 3 ∷ 4 ∷ [] }
    {
        Renaming::new([0, 1, 2, 3, 4])
    }

    // The inverse: its places hold the old names of the replicas whose new names are 0 to 4.
    #[tactic(auto, using(crate::specs::CodeLaws::inverted_five))]
    pub fn inverse(self) -> Renaming
        ensures { result.names ≡ inverted self.names }
    {
        Renaming::new(inverse(self.names))
    }
}

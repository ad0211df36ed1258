// A post's record: methods by value, one a field.
ghost use Rattle.std.specs.Prelude.{◌≡◌, ◌<◌};
ghost use Rattle.section.specs.Numbers.{most_seals};
ghost use Rattle.section.specs.Post.{blank, turned, permitted, measured, with_fault, faulty, marked, sealed, cautioned, has_fault};

use crate::{Fault, Faults, Post};

impl Faults {
    // The fault stands, or else is gone.
    fn with_fault(self, f: Fault, x: bool) -> Faults
        ensures { result ≡ with_fault f x self }
    {
        match f {
            Fault::One => Faults { one: x, ..self },
            Fault::Two => Faults { two: x, ..self },
            Fault::Three => Faults { three: x, ..self },
            Fault::Four => Faults { four: x, ..self },
        }
    }
}

pub fn blank() -> Post
    ensures { result ≡ blank }
{
    Post::default()
}

impl Post {
    // The device turned to CVT, or else to VNS.
    pub fn turned(self, cvt: bool) -> Post
        ensures { result ≡ turned cvt self }
    {
        Post {
            device: cvt,
            ..self
        }
    }

    pub fn permitted(self, x: bool) -> Post
        ensures { result ≡ permitted x self }
    {
        Post {
            permission: x,
            ..self
        }
    }

    pub fn measured(self, x: bool) -> Post
        ensures { result ≡ measured x self }
    {
        Post {
            measures: x,
            ..self
        }
    }

    pub fn faulty(self, f: Fault, x: bool) -> Post
        ensures { result ≡ faulty f x self }
    {
        Post {
            faults: self.faults.with_fault(f, x),
            ..self
        }
    }

    pub fn marked(self, x: bool) -> Post
        ensures { result ≡ marked x self }
    {
        Post { mark: x, ..self }
    }

    // One seal more. The callers have tested that the count is not the largest.
    pub fn sealed(self) -> Post
        requires { self.seals < most_seals }
        ensures { result ≡ sealed self }
    {
        Post {
            seals: self.seals + 1,
            ..self
        }
    }

    // The caution form for that train, instead of any other; 0: none.
    pub fn cautioned(self, number: u16) -> Post
        ensures { result ≡ cautioned number self }
    {
        Post {
            caution: number,
            ..self
        }
    }

    pub fn has_fault(self, f: Fault) -> bool
        ensures { result ≡ has_fault f self }
    {
        match f {
            Fault::One => self.faults.one,
            Fault::Two => self.faults.two,
            Fault::Three => self.faults.three,
            Fault::Four => self.faults.four,
        }
    }
}

/// A way to read trees of references, as a type that stands for it.
pub trait Reading {
    ghost use Rattle.h2_inode.specs.Access.{Access};

    ghost access: { Access };
}

// Writing the part of a book at rest.
mod call;
mod entries;
mod sections;

pub use call::write;

// Why a call came to nothing: it was refused, or there was no memory for it. The book is as it was.
pub use change::trouble::Trouble;

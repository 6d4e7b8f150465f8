// What no clause says and no row of commands or of modules shows, by what is looked into: what adapters do to the real outside; declarations
// that no command meets, and a record that is made in code.
mod adapters;
mod answers;
mod declared;
mod one_file;
mod readers;
mod records;

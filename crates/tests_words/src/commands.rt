// Lists of words beside the commands that they give, and the usages beside what each command takes.
mod lists;
mod texts;
mod usages;

// Rows of fields, where no field depends on another's value. Definitions and laws only, no code.
